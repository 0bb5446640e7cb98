//! The laws of bundle files.

ghost use Rattle.bundle_file.specs.Verdicts.{AreJudgedOnce};

/// Law: on one platform bytes give one bundle, or break one rule as the least, and never both.
pub fn files_are_judged_once()
    ensures { AreJudgedOnce }
{}
