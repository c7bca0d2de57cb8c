//! The forms of a report.

ghost use Rattle.std.specs.Prelude.{◌≡◌, IfOk};
ghost use Rattle.tl_sign_off.specs.statement.Told.{report_in};

use crate::account::Account;
use crate::junit::junit_text;
use crate::report::report_text;
use std::alloc::{AllocError, Global};

/// The forms of a report.
#[derive(Clone, Copy, Debug, PartialEq, Eq)]
pub enum Form {
    /// JSON, in one line.
    Json,
    /// XML, as JUnit has it.
    Junit,
}

/// The text of the report of an account.
pub fn text_in(alloc: Global, form: Form, account: &Account) -> Result<Vec<u8>, AllocError>
    ensures { IfOk result (λ text. text.items ≡ report_in form account.now) }
{
    match form {
        Form::Json => report_text(alloc, account),
        Form::Junit => junit_text(alloc, account),
    }
}
