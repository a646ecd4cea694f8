// How it is told why a line can't be read.
ghost use Rattle.std.specs.Prelude.{◌≡◌, ◌≤◌, length};
ghost use Rattle.script_results.specs.Complaints.{why_text, complaint};

use crate::line::Line;
use script::Why;

fn why_text(why: Why) -> &'static [u8]
    ensures text { result.now ≡ why_text why }
    ensures upper_bound { length result.now ≤ 64 }
{
    match why {
        Why::Missing => b": a field is missing\n",
        Why::Extra => b": more fields than the verb has\n",
        Why::Number => b": not a decimal number in range\n",
        Why::Hex => b": not an even number of hexadecimal digits\n",
        Why::Verb => b": unknown verb\n",
        Why::Kind => b": not live, record or append\n",
        Why::Flag => b": not 0 or 1\n",
        Why::Name => b": not NAME=VALUE of metadata\n",
        Why::LineLength => b": the line is too long\n",
        Why::BodyLength => b": the body is too long\n",
    }
}

// For standard error: what is wrong with the line of that number.
#[tactic(auto, unfolding(crate::specs::Complaints::complaint))]
pub fn complaint(line: u64, why: Why) -> Line
    ensures { result ≡ complaint line why }
{
    let mut text = Line::new();
    text.put_bytes(b"card: line ");
    text.put_decimal(line);
    text.put_bytes(why_text(why));
    text
}
