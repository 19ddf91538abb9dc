// Texts that are kept as parts.
ghost use Rattle.std.specs.Prelude.{◌≡◌, ◌++◌, [], IfOk, OnOk};
ghost use Rattle.cert_grammar.specs.CertText.{table_lines};
ghost use Rattle.cert_text.specs.Written.{bytes_of, IsTableInRange};
ghost use Rattle.cert_output.specs.TextParts.{all_bytes, AreWritable};

use crate::part::Part;
use choices::Grid;
use std::alloc::{AllocError, Global};
use std::marker::Model;
use wide_num::Text;

/// A text that is kept as parts, and as its bytes only if it is short.
#[derive(Drop)]
pub struct LongText {
    parts: Vec<Part>,
}

impl Model for LongText {
    ghost use Rattle.std.specs.Prelude.{List, ℕ};
    ghost use Rattle.cert_output.specs.TextParts.{all_bytes, AreWritable};

    ghost Value = { List ℕ };

    ghost view = { λ text. all_bytes text.parts.items };

    ghost invariant = { λ text. AreWritable text.parts.items };
}

impl LongText {
    /// The empty text. It takes no memory.
    pub(crate) fn new(alloc: Global) -> LongText
        ensures { result ≡ [] }
    {
        LongText {
            parts: Vec::new(alloc),
        }
    }

    /// The long text of these bytes. The only error is out of memory.
    pub fn from_text(alloc: Global, text: Text) -> Result<LongText, AllocError>
        ensures { IfOk result (λ long. long ≡ text) }
    {
        let mut long = LongText::new(alloc);
        long.add_text(text)?;
        Ok(long)
    }

    /// Adds a text at the end. The only error is out of memory.
    pub(crate) fn add_text(&mut self, text: Text) -> Result<(), AllocError>
        ensures { OnOk result (self.new ≡ self.old ++ text) }
    {
        self.parts.push(Part::Bytes(text))?;
        Ok(())
    }

    /// Adds the lines of a table at the end. The only error is out of memory.
    pub(crate) fn add_lines(&mut self, table: Grid) -> Result<(), AllocError>
        requires { IsTableInRange table }
        ensures { OnOk result (self.new ≡ self.old ++ bytes_of (table_lines table)) }
    {
        self.parts.push(Part::Lines(table))?;
        Ok(())
    }

    /// The parts in order.
    pub(crate) fn parts(&self) -> &[Part]
        ensures whole { all_bytes result.now ≡ self.now }
        ensures writable { AreWritable result.now }
    {
        self.parts.as_slice()
    }
}
