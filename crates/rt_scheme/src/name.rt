// Printing of names.
ghost use Rattle.std.specs.Prelude.{◌≡◌, ◌++◌, ◌<◌, ◌↔◌, IsTrue, OnOk, OnErr};
ghost use Rattle.std.specs.List.{flat_map};
ghost use Rattle.rt_scheme.specs.NameTexts.{hexadecimal_digit, is_plain, byte_text, name_text};

use rt_base::Memory;

// The digit of a number below 16, in lower case.
fn hexadecimal_digit_of(value: u8) -> u8
    requires { value < 16 }
    ensures { result ≡ hexadecimal_digit value }
{
    if value < 10 {
        b'0' + value
    } else {
        b'a' + (value - 10)
    }
}

// Whether the byte prints itself.
fn prints_itself(byte: u8) -> bool
    ensures { result ≡ is_plain byte }
{
    matches!(byte, b'!'..=b'~') && byte != b'\\'
}

// Adds a byte's text.
fn push_byte(byte: u8, out: &mut Vec<u8>) -> Result<(), Memory>
    ensures { OnOk result (out.new.items ≡ out.old.items ++ byte_text byte) }
{
    if prints_itself(byte) {
        return out.extend_from_slice(&[byte]);
    }
    let high = hexadecimal_digit_of(byte / 16);
    let low = hexadecimal_digit_of(byte % 16);
    out.extend_from_slice(&[b'\\', high, low])
}

// Adds the text of each byte.
fn push_bytes(bytes: &[u8], out: &mut Vec<u8>) -> Result<(), Memory>
    ensures { OnOk result (out.new.items ≡ out.old.items ++ flat_map byte_text bytes.now) }
{
    for byte in bytes {
        push_byte(*byte, out)?;
    }
    Ok(())
}

/// Adds the one text of a name at the end. A visible byte of ASCII (0x21 to 0x7E) other than `\` stands for
/// itself, every other byte is `\` and two lower-case hexadecimal digits. The empty name is `-`, and the
/// name `-` is `\2d`, so that the text is one word. Out of memory, the bytes are as they were.
pub fn print_name(name: &[u8], out: &mut Vec<u8>) -> Result<(), Memory>
    ensures ok { OnOk result (out.new.items ≡ out.old.items ++ name_text name.now) }
    ensures err { OnErr result (out.new.items ≡ out.old.items) }
{
    match name {
        [] => out.extend_from_slice(b"-"),
        [b'-'] => out.extend_from_slice(b"\\2d"),
        _ => {
            let mut text = Vec::new(*out.allocator());
            push_bytes(name, &mut text)?;
            out.extend_from_slice(&text)
        }
    }
}
