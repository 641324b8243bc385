//! The text of names.

ghost use Rattle.std.specs.Prelude.{◌≡◌, ◌<◌, [], ◌∷◌, ◌++◌, IfOk, flat_map, string_bytes};
ghost use Rattle.wasm_gen_view.specs.ItemText.{byte_text, hex_digit, is_plain, name_text};

use std::alloc::AllocError;

// Appends a hexadecimal digit.
fn put_digit(digit: u8, out: &mut String) -> Result<(), AllocError>
    requires { digit < 16 }
    ensures { IfOk result (λ _. string_bytes out.new ≡ string_bytes out.old ++ hex_digit digit ∷ []) }
{
    let code = if digit < 10 {
        b'0' + digit
    } else {
        b'a' + (digit - 10)
    };
    out.push(char::from(code))
}

// Returns true if a name's text has a byte as it is.
fn is_plain(byte: u8) -> bool
    ensures { result ≡ is_plain byte }
{
    (b' '..=b'~').contains(&byte) && byte != b'"' && byte != b'\\'
}

// Appends a byte of a name.
fn put_byte(byte: u8, out: &mut String) -> Result<(), AllocError>
    ensures { IfOk result (λ _. string_bytes out.new ≡ string_bytes out.old ++ byte_text byte) }
{
    if is_plain(byte) {
        return out.push(char::from(byte));
    }
    out.push_str("\\")?;
    put_digit(byte / 16, out)?;
    put_digit(byte % 16, out)
}

// Appends the bytes of a name.
#[tactic(auto, using(wasm_spec::proofs::ListEncodings::list_steps))]
fn put_bytes(bytes: &[u8], out: &mut String) -> Result<(), AllocError>
    ensures { IfOk result (λ _. string_bytes out.new ≡ string_bytes out.old ++ flat_map byte_text bytes.now) }
{
    for byte in bytes {
        put_byte(*byte, out)?;
    }
    Ok(())
}

// Appends a name in quotes.
pub(crate) fn put_name(name: &str, out: &mut String) -> Result<(), AllocError>
    ensures { IfOk result (λ _. string_bytes out.new ≡ string_bytes out.old ++ name_text name.now) }
{
    out.push_str("\"")?;
    put_bytes(name.as_bytes(), out)?;
    out.push_str("\"")
}
