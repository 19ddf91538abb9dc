// Texts that are appended.
use crate::FileKind;
use cert_output::LongText;

/// A text that is appended to the command's file of a kind.
#[derive(Drop)]
pub struct FileText {
    pub kind: FileKind,
    pub text: LongText,
}
