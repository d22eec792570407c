//! What bytes look like that are no capture.
ghost use Rattle.std.specs.Prelude.{◌≡◌, ◌+◌, ◌*◌, ◌==◌, codes, drop, false, nat_lt};
ghost use Rattle.std.specs.List.{list_all};
ghost use Rattle.std.specs.Str.{bytes_eq};
ghost use Rattle.capture_hint.specs.Likeness.{is_hex_digit, is_sign, begins, has_piece, is_compressed, is_utf16, is_marked, begins_remark, are_digits, has_digit, is_digit_text, is_dump, is_number_list, is_trace, is_script, is_recording, has_second, begins_turned, goes_on_swapped, begins_swapped, is_topology_map, are_firsts, begins_capture, has_line_feed, likeness_of};

/// What bytes can look like.
#[derive(Clone, Copy, Debug, PartialEq, Eq)]
pub enum Likeness {
    /// They begin as what gzip packs.
    Compressed,
    /// They begin with the mark of UTF-16.
    Utf16,
    /// They begin with the mark of UTF-8.
    Marked,
    /// Digits, the signs that stand between them, and remarks alone.
    Digits,
    /// They begin with the offset 0, as the dumps of `xxd`, `hexdump`, `od` and Wireshark.
    Dump,
    /// Plain text with a brace and a number that begins with `0x`.
    NumberList,
    /// They begin with `# tracer:`, or have an event or a packet as a Linux kernel names them.
    Trace,
    /// They begin as a script does: with `#`, `node `, `delay ` or `times `; and don't say who initiated a reset.
    Script,
    /// The second quadlet is `1394`, as in a configuration ROM.
    Rom,
    /// It is `4931`: a configuration ROM whose quadlets have their lowest byte first.
    TurnedRom,
    /// A pair of node 0 stands first, its quadlets with the lowest byte first.
    Turned,
    /// The same, the halves of its quadlets swapped.
    Halves,
    /// A pair of node 0 with the lowest byte first stands behind one quadlet, as in the self-ID buffer of an OHCI
    /// controller.
    Buffer,
    /// The lengths of a topology map stand first.
    TopologyMap,
    /// They begin with a record of `nosy-dump`.
    Recording,
    /// Each quadlet begins with the bits 10: self-ID packets without their inverses.
    FirstQuadlets,
    /// A capture, with one line feed behind its last whole pair.
    LineFeed,
}

fn is_hex_digit(c: u8) -> bool
    ensures { result ≡ is_hex_digit c }
{
    (48 <= c && c <= 57) || (65 <= c && c <= 70) || (97 <= c && c <= 102)
}

/// Whether a character may stand between digits, before them or behind.
fn is_sign(c: u8) -> bool
    ensures { result ≡ is_sign c }
{
    c == b' '
        || c == b'\t'
        || c == b'\n'
        || c == b'\r'
        || c == b'x'
        || c == b'X'
        || c == b'h'
        || c == b'H'
        || c == b'u'
        || c == b'U'
        || c == b','
        || c == b':'
        || c == b';'
        || c == b'-'
        || c == b'"'
        || c == b'\''
        || c == b'('
        || c == b')'
        || c == b'['
        || c == b']'
        || c == b'{'
        || c == b'}'
}

fn is_text(bytes: &[u8], text: &[u8]) -> bool
    ensures { result ≡ bytes_eq bytes.now text.now }
{
    bytes == text
}

/// Whether bytes begin so.
fn begins(front: &[u8], bytes: &[u8]) -> bool
    ensures { result ≡ begins front.now bytes.now }
{
    bytes.starts_with(front)
}

/// Whether a piece stands somewhere in the bytes.
fn has_piece(piece: &[u8], bytes: &[u8]) -> bool
    ensures { result ≡ has_piece piece.now bytes.now }
{
    let mut rest = bytes;
    while let [_, behind @ ..] = rest {
        if begins(piece, rest) {
            return true;
        }
        rest = behind;
    }
    false
}

fn is_compressed(bytes: &[u8]) -> bool
    ensures { result ≡ is_compressed bytes.now }
{
    begins(&[0x1F, 0x8B], bytes)
}

fn is_utf16(bytes: &[u8]) -> bool
    ensures { result ≡ is_utf16 bytes.now }
{
    begins(&[0xFF, 0xFE], bytes) || begins(&[0xFE, 0xFF], bytes)
}

fn is_marked(bytes: &[u8]) -> bool
    ensures { result ≡ is_marked bytes.now }
{
    begins(&[0xEF, 0xBB, 0xBF], bytes)
}

/// Whether a remark begins here.
fn begins_remark(bytes: &[u8]) -> bool
    ensures { result ≡ begins_remark bytes.now }
{
    begins(b"#", bytes) || begins(b"//", bytes)
}

/// Whether digits and such signs alone stand outside of remarks.
fn are_digits(bytes: &[u8]) -> bool
    ensures { result ≡ are_digits false bytes.now }
{
    let mut inside = false;
    let mut rest = bytes;
    while let [c, behind @ ..] = rest {
        if inside {
            inside = *c != b'\n';
        } else if begins_remark(rest) {
            inside = true;
        } else if !is_hex_digit(*c) && !is_sign(*c) {
            return false;
        }
        rest = behind;
    }
    true
}

/// Whether a digit stands outside of remarks.
fn has_digit(bytes: &[u8]) -> bool
    ensures { result ≡ has_digit false bytes.now }
{
    let mut inside = false;
    let mut rest = bytes;
    while let [c, behind @ ..] = rest {
        if inside {
            inside = *c != b'\n';
        } else if begins_remark(rest) {
            inside = true;
        } else if is_hex_digit(*c) {
            return true;
        }
        rest = behind;
    }
    false
}

fn is_digit_text(bytes: &[u8]) -> bool
    ensures { result ≡ is_digit_text bytes.now }
{
    has_digit(bytes) && are_digits(bytes)
}

/// Whether the offset 0 of a dump stands first.
fn is_dump(bytes: &[u8]) -> bool
    ensures { result ≡ is_dump bytes.now }
{
    begins(b"00000000:", bytes)
        || begins(b"00000000  ", bytes)
        || begins(b"0000000 ", bytes)
        || begins(b"000000 ", bytes)
        || begins(b"0000  ", bytes)
}

fn is_plain(bytes: &[u8]) -> bool
    ensures { result ≡ list_all (λ c. nat_lt c 128) bytes.now }
{
    bytes.iter().all(|c| *c < 128)
}

fn is_number_list(bytes: &[u8]) -> bool
    ensures { result ≡ is_number_list bytes.now }
{
    is_plain(bytes) && has_piece(b"{", bytes) && has_piece(b"0x", bytes)
}

fn is_trace(bytes: &[u8]) -> bool
    ensures { result ≡ is_trace bytes.now }
{
    begins(b"# tracer:", bytes)
        || has_piece(b"bus_reset_handle:", bytes)
        || has_piece(b"self_id_complete:", bytes)
        || has_piece(b"selfID 0:", bytes)
}

fn is_script(bytes: &[u8]) -> bool
    ensures { result ≡ is_script bytes.now }
{
    (begins(b"#", bytes)
        || begins(b"node ", bytes)
        || begins(b"delay ", bytes)
        || begins(b"times ", bytes))
        && !has_piece(b" initiated ", bytes)
}

fn is_recording(bytes: &[u8]) -> bool
    ensures { result ≡ is_recording bytes.now }
{
    begins(&[4, 0, 0, 0], bytes) || begins(&[16, 0, 0, 0], bytes)
}

/// Whether the second quadlet has these bytes.
fn has_second(text: &[u8], bytes: &[u8]) -> bool
    ensures { result ≡ has_second text.now bytes.now }
{
    match bytes {
        [_, _, _, _, e, f, g, h, ..] => {
            let second = [*e, *f, *g, *h];
            is_text(&second, text)
        }
        _ => false,
    }
}

/// Whether two bytes are inverses of each other.
fn is_inverse(byte: u8, inverse: u8) -> bool
    ensures { result ≡ (byte + inverse == 255) }
{
    inverse == 255 - byte
}

/// Whether bytes begin with a pair of node 0 whose quadlets have the lowest byte first.
fn begins_turned(bytes: &[u8]) -> bool
    ensures { result ≡ begins_turned bytes.now }
{
    match bytes {
        [a, b, c, d, e, f, g, h, ..] => {
            is_inverse(*a, *e)
                && is_inverse(*b, *f)
                && is_inverse(*c, *g)
                && is_inverse(*d, *h)
                && *d == 128
                && *a != 128
        }
        _ => false,
    }
}

/// Whether such a pair stands behind one quadlet.
fn is_buffer(bytes: &[u8]) -> bool
    ensures { result ≡ begins_turned (drop 4 bytes.now) }
{
    match bytes {
        [_, _, _, _, behind @ ..] => begins_turned(behind),
        _ => false,
    }
}

/// Whether the pair that follows is of node 1 if the halves of its quadlets are swapped, and of none of the nodes 0 to 2
/// if they aren't.
fn goes_on_swapped(bytes: &[u8]) -> bool
    ensures { result ≡ goes_on_swapped bytes.now }
{
    match bytes {
        [a, b, c, d, e, f, g, h, ..] => {
            is_inverse(*a, *e)
                && is_inverse(*b, *f)
                && is_inverse(*c, *g)
                && is_inverse(*d, *h)
                && *c == 129
                && *a > 130
        }
        _ => false,
    }
}

/// Whether bytes begin with a pair of node 0 whose quadlets have their halves swapped.
fn begins_swapped(bytes: &[u8]) -> bool
    ensures { result ≡ begins_swapped bytes.now }
{
    match bytes {
        [a, b, c, d, e, f, g, h, behind @ ..] => {
            is_inverse(*a, *e)
                && is_inverse(*b, *f)
                && is_inverse(*c, *g)
                && is_inverse(*d, *h)
                && *c == 128
                && (*a != 128 || goes_on_swapped(behind))
        }
        _ => false,
    }
}

/// The number of two bytes.
fn of_two(high: u8, low: u8) -> usize
    ensures { result ≡ 256 * high + low }
{
    256 * usize::from(high) + usize::from(low)
}

/// Whether the lengths of a topology map stand first.
fn is_topology_map(bytes: &[u8]) -> bool
    ensures { result ≡ is_topology_map bytes.now }
{
    match bytes {
        [a, b, _, _, _, _, _, _, _, _, k, l, behind @ ..] => {
            let told = of_two(*a, *b);
            of_two(*k, *l) + 2 == told && 4 * told <= behind.len() + 8
        }
        _ => false,
    }
}

/// Whether each quadlet begins with the bits 10.
fn are_firsts(bytes: &[u8]) -> bool
    ensures { result ≡ are_firsts bytes.now }
{
    let mut rest = bytes;
    while let [a, _, _, _, behind @ ..] = rest {
        if *a / 64 != 2 {
            return false;
        }
        rest = behind;
    }
    rest.is_empty()
}

/// Whether bytes begin as a capture does, with a self-ID packet and its inverse. It takes no memory.
pub fn begins_capture(bytes: &[u8]) -> bool
    ensures { result ≡ begins_capture bytes.now }
{
    match bytes {
        [a, b, c, d, e, f, g, h, ..] => {
            is_inverse(*a, *e)
                && is_inverse(*b, *f)
                && is_inverse(*c, *g)
                && is_inverse(*d, *h)
                && *a / 64 == 2
        }
        _ => false,
    }
}

/// Whether a line feed stands behind whole pairs.
fn has_line_feed(bytes: &[u8]) -> bool
    ensures { result ≡ has_line_feed bytes.now }
{
    begins_capture(bytes) && bytes.len() % 8 == 1 && begins(b"\n", &bytes[bytes.len() - 1..])
}

/// What bytes look like that are no capture: the first of the list that fits, or nothing. It takes no
/// memory.
pub fn likeness_of(bytes: &[u8]) -> Option<Likeness>
    ensures { result ≡ likeness_of bytes.now }
{
    if is_compressed(bytes) {
        Some(Likeness::Compressed)
    } else if is_utf16(bytes) {
        Some(Likeness::Utf16)
    } else if is_marked(bytes) {
        Some(Likeness::Marked)
    } else if is_dump(bytes) {
        Some(Likeness::Dump)
    } else if is_digit_text(bytes) {
        Some(Likeness::Digits)
    } else if is_trace(bytes) {
        Some(Likeness::Trace)
    } else if is_number_list(bytes) {
        Some(Likeness::NumberList)
    } else if is_script(bytes) {
        Some(Likeness::Script)
    } else if has_second(b"1394", bytes) {
        Some(Likeness::Rom)
    } else if has_second(b"4931", bytes) {
        Some(Likeness::TurnedRom)
    } else if begins_turned(bytes) {
        Some(Likeness::Turned)
    } else if begins_swapped(bytes) {
        Some(Likeness::Halves)
    } else if is_buffer(bytes) {
        Some(Likeness::Buffer)
    } else if is_topology_map(bytes) {
        Some(Likeness::TopologyMap)
    } else if is_recording(bytes) {
        Some(Likeness::Recording)
    } else if !bytes.is_empty() && are_firsts(bytes) {
        Some(Likeness::FirstQuadlets)
    } else if has_line_feed(bytes) {
        Some(Likeness::LineFeed)
    } else {
        None
    }
}
