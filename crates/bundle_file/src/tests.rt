/// Bundle files, and the platforms that they are read on.
mod files;
/// The rules that bundle files break.
mod rules;
/// The values that bundle files give.
mod values;
