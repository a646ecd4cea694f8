// What the benchmark calls from C. A C function answers one number and no Option, so the largest stands where there is none.
#![tactic(auto)]

ghost use Rattle.std.specs.Prelude.{◌≡◌, drop};
ghost use Rattle.octets.specs.Compare.{ascii};
ghost use Rattle.amf0.specs.Decode.{all_values};
ghost use Rattle.amf0.specs.Lookup.{properties_at};
ghost use Rattle.amf0.specs.Places.{count_of, found_of};
ghost use Rattle.bench.specs.Answers.{count_answer, found_answer};

// How many values the body has, or the largest number where one is malformed.
#[unsafe(no_mangle)]
pub extern "C" fn bench_values(s: &[u8]) -> usize
    ensures { result ≡ count_answer (count_of (all_values (drop 0 s.now))) }
{
    amf0::count_values(s, 0).unwrap_or(usize::MAX)
}

// Where the value of the last property `width` of the value at `at` starts, or the largest number where there is none.
#[unsafe(no_mangle)]
pub extern "C" fn bench_find(s: &[u8], at: usize) -> usize
    ensures { result ≡ found_answer (found_of s.now (ascii "width") (properties_at (drop at s.now))) }
{
    amf0::find(s, at, b"width")
        .ok()
        .flatten()
        .unwrap_or(usize::MAX)
}
