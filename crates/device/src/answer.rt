// Answering: a PDU of the PDU layer, written by its writer, and its data behind it.
ghost use Rattle.std.specs.Prelude.{◌≡◌, ◌+◌, ◌≤◌, length};
ghost use Rattle.octets.specs.Bytes.{bytes_of};
ghost use Rattle.device.specs.Carry.{answer_of, Filled};
ghost use Rattle.device.specs.Safe.{AnswerSafe, Roomy, is_silent, pdu_in, data_behind, Behind};

use judge::Answer;
use pdu::Pdu;

// Nothing is answered.
fn is_silent(a: Answer) -> bool
    ensures { result ≡ is_silent a }
{
    matches!(a, Answer::Silence)
}

// The PDU of an answer; of silence, which has none, any: an Option of it would be a copy, and the caller has asked already.
fn pdu_in(a: Answer) -> Pdu
    ensures { result ≡ pdu_in a }
{
    match a {
        Answer::Silence => Pdu::GroupValueRead,
        Answer::Plain(pdu)
        | Answer::Number { pdu, .. }
        | Answer::Sheet { pdu, .. }
        | Answer::Echo(pdu) => pdu,
    }
}

// A number behind the first i bytes: the count of all.
fn number_behind(out: &mut [u8], i: usize, width: usize, x: u64) -> usize
    requires { (16 ≤ length out.old) × (i + width ≤ 16) × (width ≤ 6) }
    ensures { Behind i (bytes_of width x) result out.old out.new }
{
    octets::put(out, i, width, x);
    i + width
}

// A run of bytes behind the first i: the count of all.
fn run_behind(out: &mut [u8], i: usize, d: &[u8]) -> usize
    requires { (16 ≤ length out.old) × (i + length d.now ≤ 16) }
    ensures { Behind i d.now result out.old out.new }
{
    octets::splice(out, i, d);
    i + d.len()
}

// The data of an answer behind the i bytes of its PDU: the count of all.
fn data_behind(out: &mut [u8], i: usize, a: Answer, s: &[u8], d: &[u8]) -> usize
    requires { (16 ≤ length out.old) × AnswerSafe s.now d.now a × (i + length (data_behind s.now d.now a) ≤ 16) }
    ensures { Behind i (data_behind s.now d.now a) result out.old out.new }
{
    match a {
        Answer::Silence | Answer::Plain(_) => i,
        Answer::Number { width, x, .. } => number_behind(out, i, width, x),
        Answer::Sheet { at, n, .. } => run_behind(out, i, &s[at..at + n]),
        Answer::Echo(_) => run_behind(out, i, d),
    }
}

// The answer in front of the buffer, s being the sheet after the stores. The PDU is written at one place, whatever the data is, so
// that the compiler reads its fields where they stand and copies none.
pub fn answer(out: &mut [u8], a: Answer, s: &[u8], d: &[u8]) -> usize
    requires { Roomy (length out.old) a × AnswerSafe s.now d.now a }
    ensures { Filled (answer_of s.now d.now a) result out.old out.new }
{
    if is_silent(a) {
        return 0;
    }
    let p = pdu_in(a);
    let i = pdu::encode(p, &d[..0], out);
    data_behind(out, i, a, s, d)
}
