//! The laws of platform files.

ghost use Rattle.platform_file.specs.Verdicts.{AreJudgedOnce};

/// Law: bytes give one platform, or break one rule as the least, and never both.
pub fn files_are_judged_once()
    ensures { AreJudgedOnce }
{}
