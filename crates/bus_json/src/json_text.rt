//! The text of a JSON value, as it is written.
ghost use Rattle.std.specs.Prelude.{◌≡◌, ◌++◌, [], ◌∷◌, codes, decimal, IfOk, OnOk};
ghost use Rattle.json.specs.Token.{begin_object, end_object, begin_array, end_array, key, string, number, boolean, null};
ghost use Rattle.json.specs.Lex.{tokens};
ghost use Rattle.json.specs.Print.{print};

use json::Writer;
use std::alloc::Global;
use std::marker::Model;
use topology_stack::OutOfMemory;

/// The beginning of a JSON text: brackets, keys and values in the order in which they are written. In
/// a contract it is the list of these.
#[derive(Drop)]
pub struct JsonText {
    writer: Writer,
}

impl Model for JsonText {
    ghost use Rattle.std.specs.Prelude.{◌≡◌, List, []};
    ghost use Rattle.json.specs.Token.{Token, tokens_code};

    ghost Value = { List Token };

    ghost coded = { tokens_code };

    ghost view = { λ t. t.writer.tokens };

    ghost invariant = { λ t. t.writer.before ≡ [] };
}

impl JsonText {
    /// The empty text. It takes no memory until something is written.
    pub fn new(alloc: Global) -> JsonText
        ensures { result ≡ [] }
    {
        JsonText {
            writer: Writer::new(Vec::new(alloc)),
        }
    }

    /// Begins an object.
    pub fn open_object(&mut self) -> Result<(), OutOfMemory>
        ensures { OnOk result (self.new ≡ self.old ++ begin_object ∷ []) }
    {
        self.writer.begin_object()
    }

    /// Ends an object.
    pub fn close_object(&mut self) -> Result<(), OutOfMemory>
        ensures { OnOk result (self.new ≡ self.old ++ end_object ∷ []) }
    {
        self.writer.end_object()
    }

    /// Begins a list.
    pub fn open_list(&mut self) -> Result<(), OutOfMemory>
        ensures { OnOk result (self.new ≡ self.old ++ begin_array ∷ []) }
    {
        self.writer.begin_array()
    }

    /// Ends a list.
    pub fn close_list(&mut self) -> Result<(), OutOfMemory>
        ensures { OnOk result (self.new ≡ self.old ++ end_array ∷ []) }
    {
        self.writer.end_array()
    }

    /// The key of a member.
    pub fn key(&mut self, name: &str) -> Result<(), OutOfMemory>
        ensures { OnOk result (self.new ≡ self.old ++ key name.now ∷ []) }
    {
        self.writer.key(name)
    }

    /// A string.
    pub fn string(&mut self, text: &str) -> Result<(), OutOfMemory>
        ensures { OnOk result (self.new ≡ self.old ++ string text.now ∷ []) }
    {
        self.writer.string(text)
    }

    /// A number.
    pub fn number(&mut self, n: u64) -> Result<(), OutOfMemory>
        ensures { OnOk result (self.new ≡ self.old ++ number (decimal n) ∷ []) }
    {
        self.writer.u64(n)
    }

    /// `true` or `false`.
    pub fn truth(&mut self, flag: bool) -> Result<(), OutOfMemory>
        ensures { OnOk result (self.new ≡ self.old ++ boolean flag ∷ []) }
    {
        self.writer.boolean(flag)
    }

    /// `null`.
    pub fn null(&mut self) -> Result<(), OutOfMemory>
        ensures { OnOk result (self.new ≡ self.old ++ null ∷ []) }
    {
        self.writer.null()
    }

    /// A member whose value is a number.
    pub fn number_member(&mut self, name: &str, n: u64) -> Result<(), OutOfMemory>
        ensures { OnOk result (self.new ≡ self.old ++ key name.now ∷ number (decimal n) ∷ []) }
    {
        self.key(name)?;
        self.number(n)
    }

    /// A member whose value is `true` or `false`.
    pub fn truth_member(&mut self, name: &str, flag: bool) -> Result<(), OutOfMemory>
        ensures { OnOk result (self.new ≡ self.old ++ key name.now ∷ boolean flag ∷ []) }
    {
        self.key(name)?;
        self.truth(flag)
    }

    /// A member whose value is a string.
    pub fn string_member(&mut self, name: &str, text: &str) -> Result<(), OutOfMemory>
        ensures { OnOk result (self.new ≡ self.old ++ key name.now ∷ string text.now ∷ []) }
    {
        self.key(name)?;
        self.string(text)
    }

    /// Begins an object with the number of the schema.
    pub fn open_schema(&mut self) -> Result<(), OutOfMemory>
        ensures { OnOk result (self.new ≡ self.old
            ++ begin_object ∷ key (codes "schema") ∷ number (decimal 1) ∷ []) }
    {
        self.open_object()?;
        self.number_member("schema", 1)
    }

    /// The whole text, and a line feed.
    pub fn into_line(self) -> Result<Vec<u8>, OutOfMemory>
        ensures line { IfOk result (λ line. line.items ≡ print self ++ 10 ∷ []) }
        // It is read as what was written.
        ensures reads_back { tokens (print self) ≡ self }
    {
        let mut line = self.writer.into_inner();
        line.push(b'\n')?;
        Ok(line)
    }
}
