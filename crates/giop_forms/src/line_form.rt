//! The two forms in which a command tells what it read: lines of text, or lines of JSON.
ghost use Rattle.std.specs.Prelude.{◌≡◌};

use giop_json::NumberForm;

/// The form of a line, and that of the whole numbers in the values of one.
#[derive(Clone, Copy, Debug, PartialEq, Eq)]
pub enum LineForm {
    /// Words (docs/giopctl.md).
    Text(NumberForm),
    /// An object of JSON (docs/FORMATS.md).
    Json(NumberForm),
}

impl LineForm {
    ghost use Rattle.giop_forms.specs.Forms.{numbers_of};

    /// The form of whole numbers in values.
    pub fn numbers(self) -> NumberForm
        ensures { result ≡ numbers_of self }
    {
        match self {
            LineForm::Text(numbers) => numbers,
            LineForm::Json(numbers) => numbers,
        }
    }
}
