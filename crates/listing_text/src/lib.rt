// The lines that the listing prints, written to a text: fields, an event's answer, a bad line.
#![tactic(auto)]

ghost use Rattle.std.specs.Prelude.{◌≡◌, [], ◌∷◌, ◌++◌, ◌+◌, ◌≤◌, length};
ghost use Rattle.decimal.specs.Decimal.{digits_of};
ghost use Rattle.listing_rules.specs.Texts.{answer_text, bad_line};
ghost use Rattle.listing_rules.specs.Sizes.{most_answer_bytes, most_field_bytes, most_bad_line_bytes};

use decimal::Text;
use records::Answer;

// Writes a number and the byte that ends its field.
pub fn write_field<const N: usize>(out: &mut Text<N>, n: u64, end: u8)
    requires { length out.old + most_field_bytes ≤ N }
    ensures text { out.new ≡ out.old ++ (digits_of n ++ (end ∷ [])) }
    ensures short { length out.new ≤ length out.old + most_field_bytes }
{
    out.push_digits(n);
    out.push(end);
}

// Writes the answer to the n-th event.
pub fn write_answer<const N: usize>(out: &mut Text<N>, n: u64, a: Answer)
    requires { length out.old + most_answer_bytes ≤ N }
    ensures text { out.new ≡ out.old ++ answer_text n a }
    ensures short { length out.new ≤ length out.old + most_answer_bytes }
{
    write_field(out, n, b',');
    write_field(out, a.number, b',');
    write_field(out, a.first, b',');
    write_field(out, a.added, b',');
    write_field(out, a.raised, b',');
    write_field(out, a.removed, b'\n');
}

// Writes that line n is bad.
pub fn write_bad_line<const N: usize>(out: &mut Text<N>, n: u64)
    requires { length out.old + most_bad_line_bytes ≤ N }
    ensures text { out.new ≡ out.old ++ bad_line n }
    ensures short { length out.new ≤ length out.old + most_bad_line_bytes }
{
    out.extend_from_slice(b"bad line ");
    write_field(out, n, b'\n');
}
