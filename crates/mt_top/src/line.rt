//! The line that names the first damage of two stores.
ghost use Rattle.std.specs.Prelude.{◌≡◌, ◌<◌, ◌++◌, decimal, IfOk};
ghost use Rattle.std.specs.Char.{digit_char};
ghost use Rattle.mt_top.specs.Lines.{hex_byte, hex_of, damage_line};

use itoa::Buffer;
use mt_model::{Key, NoMemory};
use std::alloc::Global;

/// The hexadecimal digit of a value below 16, in lower case.
fn hex_digit(n: u8) -> u8
    requires { n < 16 }
    ensures { result ≡ digit_char n }
{
    if n < 10 { b'0' + n } else { b'a' + (n - 10) }
}

fn push_byte(line: &mut Vec<u8>, byte: u8) -> Result<(), NoMemory>
    ensures { IfOk result (λ u. line.new.items ≡ line.old.items ++ hex_byte byte) }
{
    line.extend_from_slice(&[hex_digit(byte / 16), hex_digit(byte % 16)])?;
    Ok(())
}

/// Writes the bytes of a text, each as two digits.
fn push_hex(line: &mut Vec<u8>, bytes: &[u8]) -> Result<(), NoMemory>
    ensures { IfOk result (λ u. line.new.items ≡ line.old.items ++ hex_of bytes.now) }
{
    for byte in bytes {
        push_byte(line, *byte)?;
    }
    Ok(())
}

fn push_number(line: &mut Vec<u8>, n: u32) -> Result<(), NoMemory>
    ensures { IfOk result (λ u. line.new.items ≡ line.old.items ++ decimal n) }
{
    let mut buffer = Buffer::new();
    line.extend_from_slice(buffer.format(n).as_bytes())?;
    Ok(())
}

/// The line `damaged store=S rule=R pk=HEX rk=HEX`, with its line feed. The one error is want of memory.
pub fn damage_line(alloc: Global, store: u32, key: &Key, rule: u8) -> Result<Vec<u8>, NoMemory>
    ensures { IfOk result (λ line. line.items ≡ damage_line store key.now rule) }
{
    let mut line = Vec::new(alloc);
    line.extend_from_slice(b"damaged store=")?;
    push_number(&mut line, store)?;
    line.extend_from_slice(b" rule=")?;
    push_number(&mut line, u32::from(rule))?;
    line.extend_from_slice(b" pk=")?;
    push_hex(&mut line, key.pk.as_str().as_bytes())?;
    line.extend_from_slice(b" rk=")?;
    push_hex(&mut line, key.rk.as_str().as_bytes())?;
    line.extend_from_slice(b"\n")?;
    Ok(line)
}
