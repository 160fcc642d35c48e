//! The forms of rows, by their first field.

ghost use Rattle.std.specs.Prelude.{◌≡◌};
ghost use Rattle.dex_statement.specs.Forms as forms;

/// A form of row.
#[derive(Clone, Copy, Debug, PartialEq, Eq)]
pub enum Form {
    Program,
    Clock,
    Mint,
    Srm,
    Msrm,
    Wallet,
    Market,
    Orders,
    Bytes,
    Words,
    Swap,
}

/// The form of row that begins with this field, if there is one.
pub(crate) fn form_of(word: &[u8]) -> Option<Form>
    ensures { result ≡ forms.form_of word.now }
{
    if word == b"program".as_slice() {
        Some(Form::Program)
    } else if word == b"clock".as_slice() {
        Some(Form::Clock)
    } else if word == b"ix".as_slice() {
        Some(Form::Bytes)
    } else if word == b"do".as_slice() {
        Some(Form::Words)
    } else if word == b"swap".as_slice() {
        Some(Form::Swap)
    } else {
        setup_form_of(word)
    }
}

/// The form of setup row that begins with this field, if there is one.
fn setup_form_of(word: &[u8]) -> Option<Form>
    ensures { result ≡ forms.setup_form_of word.now }
{
    if word == b"mint".as_slice() {
        Some(Form::Mint)
    } else if word == b"srm".as_slice() {
        Some(Form::Srm)
    } else if word == b"msrm".as_slice() {
        Some(Form::Msrm)
    } else if word == b"wallet".as_slice() {
        Some(Form::Wallet)
    } else if word == b"market".as_slice() {
        Some(Form::Market)
    } else if word == b"orders".as_slice() {
        Some(Form::Orders)
    } else {
        None
    }
}
