// The line of a record.
ghost use Rattle.std.specs.Prelude.{◌≡◌, ◌+◌, ◌≤◌, ◌++◌, length};
ghost use Rattle.arrayvec.specs.ArrayString.{array_string_len};
ghost use Rattle.records.specs.Lines.{line_of};

use arrayvec::ArrayString;
use itoa::{Buffer, Integer};
use layout::answers::Answer;

// Appends a number and what follows it.
#[inline(always)]
fn put_field<I: Integer, const CAP: usize>(line: &mut ArrayString<CAP>, number: I, after: &str)
    requires { array_string_len line.old + I.MAX_STR_LEN + length after.now ≤ CAP }
    ensures text { line.new.bytes ≡ line.old.bytes ++ I.text number ++ after.now }
    ensures long { array_string_len line.new
        ≤ array_string_len line.old + I.MAX_STR_LEN + length after.now }
{
    let mut buffer = Buffer::new();
    line.push_str(buffer.format(number));
    line.push_str(after);
}

// "Each line: record number from 1, kind, then `ok x y` or `refused r`." It is appended to what the text has.
#[tactic(auto, using(crate::proofs::Decimals::printed), unfolding(crate::specs::Lines::line_of, crate::specs::Lines::field, crate::specs::Lines::outcome))]
pub fn put_line<const CAP: usize>(
    line: &mut ArrayString<CAP>,
    number: u64,
    kind: u32,
    answer: Answer,
)
    requires { array_string_len line.old + 64 ≤ CAP }
    ensures { line.new.bytes ≡ line.old.bytes ++ line_of number kind answer }
{
    put_field(line, number, " ");
    put_field(line, kind, " ");
    if answer.refusal == 0 {
        line.push_str("ok ");
        put_field(line, answer.x, " ");
        put_field(line, answer.y, "\n");
    } else {
        line.push_str("refused ");
        put_field(line, answer.refusal, "\n");
    }
}

// The line alone.
pub fn line(number: u64, kind: u32, answer: Answer) -> ArrayString<64>
    ensures { result.bytes ≡ line_of number kind answer }
{
    let mut line = ArrayString::new();
    put_line(&mut line, number, kind, answer);
    line
}
