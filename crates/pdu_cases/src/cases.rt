// The cases. What one gave instead of what it wants is its error.
use crate::words::{Words, accepted, answer, taken};
use lines::{Hex, Text, first, number, parted, split_once, text, unhex};
use pdu::{Pdu, WriteRefusal};

fn unclear() -> Text {
    text("line not understood")
}

// What was got instead of what is wanted.
fn unless(want: &[u8], got: Text) -> Result<(), Text> {
    if want == got.as_slice() {
        Ok(())
    } else {
        Err(got)
    }
}

// The bytes read as the text says.
fn reads(apdu: &[u8], text: &[u8]) -> Result<(), Text> {
    unless(text, answer(apdu))
}

// What writing into a part of 20 bytes gave: `0` and the bytes, or the number of the refusal; all 20 bytes where it changed
// one after those that it wrote.
fn written(gave: Result<&[u8], WriteRefusal>, out: &[u8; 20]) -> Text {
    let count = gave.map_or(0, |bytes| bytes.len());
    if !out.iter().skip(count).all(|&b| b == 0xEE) {
        return text(Hex(out));
    }
    match gave {
        Ok(bytes) => text(format_args!("0 {}", Hex(bytes))),
        Err(refusal) => text(refusal.number()),
    }
}

// Writing gives the answer, leaves the other bytes as they were, and what it wrote reads back.
fn writes(words: Words, room: usize, answer: &[u8]) -> Result<(), Text> {
    let mut out = [0xEEu8; 20];
    let count = pdu::write(words.pdu, words.data, first(&mut out, room));
    let gave = count.map(|n| lines::part(&out, 0, n));
    unless(answer, written(gave, &out))?;
    match gave {
        Ok([]) | Err(_) => Ok(()),
        Ok(bytes) => reads(bytes, accepted(words).as_slice()),
    }
}

// The bytes as writing gives them again: the top six bits and the ignored bytes are zero.
fn cleared(pdu: Pdu, apdu: &[u8]) -> [u8; 64] {
    let mut b = [0u8; 64];
    lines::copy(&mut b, apdu);
    b[0] %= 4;
    match pdu {
        Pdu::AuthorizeRequest { .. } => b[2] = 0,
        Pdu::SerialNumberWrite { .. } => b[10..14].fill(0),
        Pdu::SerialNumberResponse { .. } => b[10..12].fill(0),
        _ => {}
    }
    b
}

// The bytes read as the text says, and what was read is written as these bytes again.
pub(crate) fn reads_and_writes(apdu: &[u8], text: &[u8]) -> Result<(), Text> {
    reads(apdu, text)?;
    let Ok(pdu) = pdu::read(apdu) else {
        return Ok(());
    };
    let words = Words {
        pdu,
        data: pdu::data_of(pdu, apdu),
    };
    let bytes = cleared(pdu, apdu);
    let bytes = Hex(lines::part(&bytes, 0, apdu.len()));
    let want = lines::text(format_args!("0 {bytes}"));
    writes(words, 20, want.as_slice())
}

// `HEX`
fn read_case(hex: &[u8], answer: &[u8]) -> Result<(), Text> {
    let apdu = unhex(hex).ok_or(unclear())?;
    reads_and_writes(apdu.as_slice(), answer)
}

// A PDU in words, written with so much room
fn write_case(pdu: &[u8], room: usize, answer: &[u8]) -> Result<(), Text> {
    let (pdu, data) = taken(pdu).ok_or(unclear())?;
    let words = Words {
        pdu,
        data: data.as_slice(),
    };
    writes(words, room, answer)
}

// `ROOM PDU`
fn into_case(words: &[u8], answer: &[u8]) -> Result<(), Text> {
    let (room, pdu) = parted(words, b' ');
    match number(room) {
        Some(room) if room <= 20 => write_case(pdu, room, answer),
        _ => Err(unclear()),
    }
}

// `COMMAND -> ANSWER | SOURCE`: the command and the answer.
fn sides(line: &[u8]) -> Option<(&[u8], &[u8])> {
    let (command, answer) = split_once(line, b'>')?;
    let (answer, source) = split_once(answer, b'|')?;
    match (command, answer, source) {
        ([command @ .., b' ', b'-'], [b' '], [b' ', ..]) => Some((command, &[])),
        ([command @ .., b' ', b'-'], [b' ', answer @ .., b' '], [b' ', ..]) => {
            Some((command, answer))
        }
        _ => None,
    }
}

// `read HEX`, `write PDU` with room for 20 bytes, `into ROOM PDU`
pub(crate) fn case(line: &[u8]) -> Result<(), Text> {
    let (command, answer) = sides(line).ok_or(unclear())?;
    let (verb, words) = parted(command, b' ');
    match verb {
        b"read" => read_case(words, answer),
        b"write" => write_case(words, 20, answer),
        b"into" => into_case(words, answer),
        _ => Err(unclear()),
    }
}
