// The auction that is made from a number.
ghost use Rattle.std.specs.Prelude.{◌≡◌, ◌++◌, [], ◌∷◌, IfOk, OnOk};
ghost use Rattle.big_auction.specs.MadeAward.{made_bidders};
ghost use Rattle.cca_cli.specs.declared.status.FileKind.{FileKind};
ghost use Rattle.cca_commands.specs.Gives.{MakeGives, award_file, log_file, made_line};
ghost use Rattle.cca_commands.specs.Works.{IsWork};

use crate::work::{Stop, Work};
use big_auction::{Made, make};
use cca_cli::{FileKind, FileText};
use cert_output::LongText;
use line_format::add_decimal;
use std::alloc::{AllocError, Global};
use wide_num::Text;

// How many bidders each made auction has.
const BIDDERS: u128 = 12;

// The line of a made auction.
fn summary(alloc: Global, number: u32, lines: u64) -> Result<Text, AllocError>
    ensures { IfOk result (λ text. text ≡ made_line number made_bidders lines) }
{
    let mut text = Text::new(alloc);
    text.add(b"made ")?;
    add_decimal(&mut text, number as u128)?;
    text.add(b" bidders ")?;
    add_decimal(&mut text, BIDDERS)?;
    text.add(b" lines ")?;
    add_decimal(&mut text, lines as u128)?;
    text.push(b'\n')?;
    Ok(text)
}

// Adds a text that is appended.
fn add_text(
    alloc: Global,
    texts: &mut Vec<FileText>,
    kind: FileKind,
    text: Text,
) -> Result<(), AllocError>
    ensures { OnOk result (texts.new.items ≡ texts.old.items ++ (record { kind = kind; text = text } ∷ [])) }
{
    let text = LongText::from_text(alloc, text)?;
    texts.push(FileText { kind, text })?;
    Ok(())
}

// The texts that are appended, the award first.
fn texts_of(alloc: Global, award: Text, log: Text) -> Result<Vec<FileText>, AllocError>
    ensures { IfOk result (λ texts. texts.items ≡ award_file award ∷ log_file log ∷ []) }
{
    let mut texts = Vec::new(alloc);
    add_text(alloc, &mut texts, FileKind::Award, award)?;
    add_text(alloc, &mut texts, FileKind::Log, log)?;
    Ok(texts)
}

/// The line of the auction of a number, and the texts of its award and its log.
pub fn made(alloc: Global, number: u32) -> Result<Work, Stop>
    ensures { IsWork (MakeGives number) (FileKind.Award ∷ FileKind.Log ∷ []) result }
{
    let Made { award, log, lines } = make(alloc, number)?;
    let printed = summary(alloc, number, lines)?;
    let appended = texts_of(alloc, award, log)?;
    Ok(Work { printed, appended })
}
