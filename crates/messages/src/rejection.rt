// Why a connection was rejected.
ghost use Rattle.std.specs.Prelude.{◌≡◌, drop};
ghost use Rattle.messages.specs.Notice.{description_at};

// The description in the value at `at`, as that stretch of the body: the text `description` of an object, or no byte where there is none.
pub fn description(body: &[u8], at: usize) -> &[u8]
    ensures { result.now ≡ description_at body.now (drop at body.now) }
{
    amf0::text_property(body, at, b"description")
}
