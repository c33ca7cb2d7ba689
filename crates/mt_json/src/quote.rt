//! Texts as JSON strings (RFC 8259), written into room that is there.
ghost use Rattle.std.specs.Prelude.{◌≡◌, ◌<◌, ◌-◌, ◌^◌, ◌∷◌, [], min, length};
ghost use Rattle.std.specs.Bool.{OnTrue};
ghost use Rattle.std.specs.Char.{digit_char};
ghost use Rattle.json.specs.Print.{escape_letter, escape_byte, escape, quoted};
ghost use Rattle.mt_json.specs.Draft.{HasRoom, Appends};

/// The bytes of an escape of a letter, such as `\n`.
const SHORT_BYTES: usize = 2;

/// The bytes of an escape of a number, such as `\u001f`.
const LONG_BYTES: usize = 6;

/// Writes the bytes. It takes no memory.
pub(crate) fn put_bytes(room: &mut Vec<u8>, bytes: &[u8])
    requires { HasRoom room.old bytes.now }
    ensures { Appends room.old bytes.now room.new }
{
    if room.extend_from_slice(bytes).is_err() {
        unreachable!()
    }
}

/// The letter of the byte's short escape, or 0.
fn letter_of(byte: u8) -> u8
    ensures { result ≡ escape_letter byte }
{
    match byte {
        b'"' | b'\\' => byte,
        0x08 => b'b',
        b'\t' => b't',
        b'\n' => b'n',
        0x0c => b'f',
        b'\r' => b'r',
        _ => 0,
    }
}

/// The hexadecimal digit of this value, in lower case.
fn hex_digit(value: u8) -> u8
    requires { value < 16 }
    ensures { result ≡ digit_char value }
{
    if value < 10 {
        b'0' + value
    } else {
        b'a' + (value - 10)
    }
}

/// The bytes that stand for the byte in a JSON string.
fn escape_size(byte: u8) -> usize
    ensures { result ≡ length (escape_byte byte) }
{
    if letter_of(byte) > 0 {
        SHORT_BYTES
    } else if byte < 0x20 {
        LONG_BYTES
    } else {
        1
    }
}

/// Writes what stands for the byte in a JSON string.
fn put_escape(room: &mut Vec<u8>, byte: u8)
    requires { HasRoom room.old (escape_byte byte) }
    ensures { Appends room.old (escape_byte byte) room.new }
{
    let letter = letter_of(byte);
    if letter > 0 {
        put_bytes(room, &[b'\\', letter]);
    } else if byte < 0x20 {
        put_bytes(
            room,
            &[
                b'\\',
                b'u',
                b'0',
                b'0',
                hex_digit(byte / 16),
                hex_digit(byte % 16),
            ],
        );
    } else {
        put_bytes(room, &[byte]);
    }
}

/// Whether the byte stands for itself in a JSON string.
fn is_plain(byte: u8) -> bool
    ensures { OnTrue result (escape_byte byte ≡ byte ∷ []) }
{
    if byte < 0x20 {
        return false;
    }
    letter_of(byte) == 0
}

/// Whether the text stands for itself in a JSON string.
fn is_plain_text(text: &[u8]) -> bool
    ensures { OnTrue result (escape text.now ≡ text.now) }
{
    for byte in text {
        if !is_plain(*byte) {
            return false;
        }
    }
    true
}

fn escaped_size(text: &[u8]) -> usize
    ensures { result ≡ min (2 ^ 64 - 1) (length (escape text.now)) }
{
    let mut size: usize = 0;
    for byte in text {
        size = size.saturating_add(escape_size(*byte));
    }
    size
}

fn put_escaped(room: &mut Vec<u8>, text: &[u8])
    requires { HasRoom room.old (escape text.now) }
    ensures { Appends room.old (escape text.now) room.new }
{
    for byte in text {
        put_escape(room, *byte);
    }
}

/// Writes the text as it stands inside a JSON string, at once where it stands for itself.
fn put_inner(room: &mut Vec<u8>, text: &[u8])
    requires { HasRoom room.old (escape text.now) }
    ensures { Appends room.old (escape text.now) room.new }
{
    if is_plain_text(text) {
        put_bytes(room, text);
    } else {
        put_escaped(room, text);
    }
}

/// The bytes of the text as a JSON string, or the largest number.
pub(crate) fn quoted_size(text: &str) -> usize
    ensures { result ≡ min (2 ^ 64 - 1) (length (quoted text.now)) }
{
    let text = text.as_bytes();
    let size = if is_plain_text(text) {
        text.len()
    } else {
        escaped_size(text)
    };
    size.saturating_add(2)
}

/// Writes the text as a JSON string. It takes no memory.
pub(crate) fn put_quoted(room: &mut Vec<u8>, text: &str)
    requires { HasRoom room.old (quoted text.now) }
    ensures { Appends room.old (quoted text.now) room.new }
{
    put_bytes(room, b"\"");
    put_inner(room, text.as_bytes());
    put_bytes(room, b"\"");
}
