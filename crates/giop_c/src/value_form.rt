//! In which form values cross to C and from it.
ghost use Rattle.std.specs.Prelude.{◌≡◌};
ghost use Rattle.giop_c.specs.Values.{c_value_form};

use giop_cdr::Order;

/// How the values of parameters are said in octets.
#[derive(Clone, Copy, Debug, PartialEq, Eq)]
pub enum ValueForm {
    /// As CDR of a byte order (CORBA 3.3 Part 2, 9.3), one after the other. They stand by
    /// themselves: the first octet has the offset 0, by which all are aligned.
    Cdr(Order),
    /// As a JSON text, a list of values (docs/FORMATS.md).
    Json,
}

/// The form that C says: 0 for CDR in big endian, 2 for JSON, else CDR in little endian.
pub fn value_form_of(form: u32) -> ValueForm
    ensures { result ≡ c_value_form form }
{
    if form == 0 {
        ValueForm::Cdr(Order::Big)
    } else if form == 2 {
        ValueForm::Json
    } else {
        ValueForm::Cdr(Order::Little)
    }
}
