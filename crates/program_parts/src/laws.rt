//! A law of what is said of files. The function's body is empty: its contract is the law.

ghost use Rattle.std.specs.Prelude.{◌≡◌, ℕ};
ghost use Rattle.std.specs.IoError.{kind_in, os_error_kinds};
ghost use Rattle.program_parts.specs.Cause.{cause_text, system_cause, system_causes};

/// For an error of the system, by its number: what `cause_text` says for its kind is what
/// `system_causes` lists for the number.
pub fn system_errors_are_named()
    ensures { (number : ℕ)
        → cause_text (kind_in os_error_kinds number) ≡ system_cause number system_causes }
{}
