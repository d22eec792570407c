//! Values of the variables of a dump.
ghost use Rattle.std.specs.Prelude.{◌≡◌, ◌≤◌, ◌<◌, [], ◌∷◌, ◌++◌, OnOk};
ghost use Rattle.script_trace.specs.waves.Value.{binary, node_code, node_line, number, port_code, port_line};

use script_text::OutOfMemory;

/// The first character of identifier codes.
const FIRST_CODE: u8 = 33;

/// The four binary digits of a number below 16.
fn four_digits(n: u8) -> &'static [u8; 4]
    requires { n < 16 }
    ensures { result.now ≡ binary 4 n }
{
    match n {
        0 => b"0000",
        1 => b"0001",
        2 => b"0010",
        3 => b"0011",
        4 => b"0100",
        5 => b"0101",
        6 => b"0110",
        7 => b"0111",
        8 => b"1000",
        9 => b"1001",
        10 => b"1010",
        11 => b"1011",
        12 => b"1100",
        13 => b"1101",
        14 => b"1110",
        _ => b"1111",
    }
}

/// The 32 binary digits of a number.
fn word_digits(n: u32) -> [u8; 32]
    ensures { result ≡ binary 32 n }
{
    let mut text = [b'0'; 32];
    for place in 0..8 {
        let four = (n >> (28 - 4 * place)) % 16;
        text[4 * place..4 * place + 4].copy_from_slice(four_digits(four as u8));
    }
    text
}

/// Appends the lowest so many binary digits of a number, at most 32.
fn put_binary(out: &mut Vec<u8>, digits: u32, n: u32) -> Result<(), OutOfMemory>
    requires { digits ≤ 32 }
    ensures { OnOk result (out.new.items ≡ out.old.items ++ binary digits n) }
{
    if digits == 32 {
        return out.extend_from_slice(&word_digits(n));
    }
    for place in (0..digits).rev() {
        out.push(b'0' + ((n >> place) % 2) as u8)?;
    }
    Ok(())
}

/// Appends a number of so many binary digits, at most 32.
pub(crate) fn put_number(out: &mut Vec<u8>, digits: u32, n: u32) -> Result<(), OutOfMemory>
    requires { digits ≤ 32 }
    ensures { OnOk result (out.new.items ≡ out.old.items ++ number digits n) }
{
    out.push(b'b')?;
    put_binary(out, digits, n)?;
    out.push(b' ')?;
    Ok(())
}

/// Appends the identifier code of a node's variable.
pub(crate) fn put_node_code(out: &mut Vec<u8>, node: u8, letter: u8) -> Result<(), OutOfMemory>
    requires { node ≤ 62 }
    ensures { OnOk result (out.new.items ≡ out.old.items ++ node_code node (letter ∷ [])) }
{
    out.push(FIRST_CODE + node)?;
    out.push(letter)?;
    Ok(())
}

/// Appends the identifier code of a port's variable.
pub(crate) fn put_port_code(
    out: &mut Vec<u8>,
    node: u8,
    port: u8,
    letter: u8,
) -> Result<(), OutOfMemory>
    requires node { node ≤ 62 }
    requires port { port ≤ 15 }
    ensures { OnOk result (out.new.items ≡ out.old.items ++ port_code node port (letter ∷ [])) }
{
    out.push(FIRST_CODE + node)?;
    out.push(FIRST_CODE + port)?;
    out.push(letter)?;
    Ok(())
}

/// Appends a value of a node's variable.
pub(crate) fn put_node_line(
    out: &mut Vec<u8>,
    node: u8,
    letter: u8,
    value: &[u8],
) -> Result<(), OutOfMemory>
    requires { node ≤ 62 }
    ensures { OnOk result (out.new.items ≡ out.old.items ++ node_line node (letter ∷ []) value.now) }
{
    out.extend_from_slice(value)?;
    put_node_code(out, node, letter)?;
    out.push(b'\n')?;
    Ok(())
}

/// Appends a number as the value of a node's variable.
pub(crate) fn put_node_number(
    out: &mut Vec<u8>,
    node: u8,
    letter: u8,
    digits: u32,
    n: u32,
) -> Result<(), OutOfMemory>
    requires node { node ≤ 62 }
    requires digits { digits ≤ 32 }
    ensures { OnOk result (out.new.items
        ≡ out.old.items ++ node_line node (letter ∷ []) (number digits n)) }
{
    put_number(out, digits, n)?;
    put_node_code(out, node, letter)?;
    out.push(b'\n')?;
    Ok(())
}

/// Appends a value of a port's variable.
pub(crate) fn put_port_line(
    out: &mut Vec<u8>,
    node: u8,
    port: u8,
    letter: u8,
    value: &[u8],
) -> Result<(), OutOfMemory>
    requires node { node ≤ 62 }
    requires port { port ≤ 15 }
    ensures { OnOk result (out.new.items
        ≡ out.old.items ++ port_line node port (letter ∷ []) value.now) }
{
    out.extend_from_slice(value)?;
    put_port_code(out, node, port, letter)?;
    out.push(b'\n')?;
    Ok(())
}

/// Appends a number of so many binary digits, at most 32, as the value of a port's variable.
pub(crate) fn put_port_number(
    out: &mut Vec<u8>,
    node: u8,
    port: u8,
    letter: u8,
    digits: u32,
    n: u32,
) -> Result<(), OutOfMemory>
    requires node { node ≤ 62 }
    requires port { port ≤ 15 }
    requires digits { digits ≤ 32 }
    ensures { OnOk result (out.new.items
        ≡ out.old.items ++ port_line node port (letter ∷ []) (number digits n)) }
{
    put_number(out, digits, n)?;
    put_port_code(out, node, port, letter)?;
    out.push(b'\n')?;
    Ok(())
}
