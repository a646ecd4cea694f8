// The fields of an opening.
ghost use Rattle.std.specs.Prelude.{◌≡◌};
ghost use Rattle.script.specs.Fields.{left};
ghost use Rattle.script.specs.Lines.{settings_of, open_line};

use crate::asked::{Line, Settings};
use crate::fields::Fields;
use crate::reasons::Why;
use octets::Span;

// From the buffer length on.
fn settings(fields: &mut Fields, flash: Span) -> Result<Settings, Why>
    ensures { result ≡ settings_of flash (left fields.old) }
{
    let buffer = fields.number()?;
    let window = fields.number()?;
    let chunk = fields.number()?;
    let url = fields.text().ok();
    fields.end()?;
    Ok(Settings {
        flash,
        buffer,
        window,
        chunk,
        url,
    })
}

pub(crate) fn open_line(fields: &mut Fields) -> Result<Line, Why>
    ensures { result ≡ open_line (left fields.old) }
{
    let Ok(flash) = fields.text() else {
        return Ok(Line::OpenDefault);
    };
    Ok(Line::Open(settings(fields, flash)?))
}
