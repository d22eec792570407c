//! What an input is taken for.
ghost use Rattle.std.specs.Prelude.{◌≡◌};

/// How a text holds bytes.
#[derive(Clone, Copy, Debug, PartialEq, Eq)]
pub enum TextForm {
    /// Words of hexadecimal digits, or of ten decimal ones, in a list or not.
    Words,
    /// The output of `xxd`: an offset of eight digits and a colon, bytes, and two blanks before their characters.
    Xxd,
    /// The output of `hexdump -C`: an offset of eight digits, bytes, and their characters between bars.
    Hexdump,
    /// The output of `hexdump` or `od`: an offset of six or seven digits, and words.
    Octal,
    /// Wireshark's dump: an offset of four digits, bytes, and two blanks or more before their characters.
    Offsets,
}

/// What holds the bytes.
#[derive(Clone, Copy, Debug, PartialEq, Eq)]
pub enum Container {
    /// They stand as they are.
    Bytes,
    /// A text has them.
    Text(TextForm),
}

/// How the packets of a bus stand among quadlets.
#[derive(Clone, Copy, Debug, PartialEq, Eq)]
pub enum Layout {
    /// Each before its inverse.
    Pairs,
    /// The packets alone.
    Firsts,
    /// Each before its inverse, behind the first quadlet of an OHCI controller's self-ID buffer.
    Buffer,
    /// As the list of a topology map.
    Map,
}

/// In which order the bytes of a quadlet stand. The numbers here are those of its bytes, 3 the highest.
#[derive(Clone, Copy, Debug, PartialEq, Eq)]
pub enum Order {
    /// 3 2 1 0.
    Big,
    /// 0 1 2 3.
    Little,
    /// 1 0 3 2: the halves of a quadlet are swapped.
    Halves,
    /// 2 3 0 1: the bytes of each half are.
    HalfBytes,
}

/// What an input is taken for.
#[derive(Clone, Copy, Debug, PartialEq, Eq)]
pub struct Taken {
    pub container: Container,
    pub layout: Layout,
    pub order: Order,
}
