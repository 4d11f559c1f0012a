//! JSON objects, written a member at a time.

ghost use Rattle.std.specs.Prelude.{◌≡◌, ◌++◌, ◌∷◌, [], decimal, IfOk};
ghost use Rattle.std.specs.Fmt.{signed_decimal};
ghost use Rattle.json.specs.Token.{begin_object, end_object, begin_array, end_array, key, string, number, boolean, null};
ghost use Rattle.json.specs.Print.{print, IsNumber};
ghost use Rattle.serving.specs.Answers.{Adds};

use json::Writer;
use std::alloc::{AllocError, Global};
use std::marker::Model;

/// A JSON object that is being written. Where a call is refused memory it is of no use after it.
#[derive(Drop)]
pub struct Object {
    writer: Writer<Global>,
}

impl Model for Object {
    ghost use Rattle.json.specs.Written.{Written, written_code};

    ghost Value = { Written };

    ghost coded = { written_code };

    ghost view = { λ o. o.writer };
}

impl Object {
    pub fn new(alloc: Global) -> Result<Object, AllocError>
        ensures { IfOk result (λ o. (o.before ≡ []) × (o.tokens ≡ begin_object ∷ [])) }
    {
        Object::after(Vec::new(alloc))
    }

    /// An object that is written behind these bytes, into the room that there is.
    pub fn after(bytes: Vec<u8>) -> Result<Object, AllocError>
        ensures { IfOk result (λ o. (o.before ≡ bytes.items) × (o.tokens ≡ begin_object ∷ [])) }
    {
        let mut writer = Writer::new(bytes);
        writer.begin_object()?;
        Ok(Object { writer })
    }

    pub fn text(&mut self, name: &str, value: &str) -> Result<(), AllocError>
        ensures { Adds result self.old self.new (key name.now ∷ string value.now ∷ []) }
    {
        self.writer.key(name)?;
        self.writer.string(value)
    }

    pub fn number(&mut self, name: &str, value: u64) -> Result<(), AllocError>
        ensures { Adds result self.old self.new (key name.now ∷ number (decimal value) ∷ []) }
    {
        self.writer.key(name)?;
        self.writer.u64(value)
    }

    pub fn signed(&mut self, name: &str, value: i64) -> Result<(), AllocError>
        ensures { Adds result self.old self.new
            (key name.now ∷ number (signed_decimal value) ∷ []) }
    {
        self.writer.key(name)?;
        self.writer.i64(value)
    }

    /// A number by its text.
    pub fn digits(&mut self, name: &str, digits: &str) -> Result<(), AllocError>
        requires { IsNumber digits.now }
        ensures { Adds result self.old self.new (key name.now ∷ number digits.now ∷ []) }
    {
        self.writer.key(name)?;
        self.writer.number(digits)
    }

    pub fn flag(&mut self, name: &str, value: bool) -> Result<(), AllocError>
        ensures { Adds result self.old self.new (key name.now ∷ boolean value ∷ []) }
    {
        self.writer.key(name)?;
        self.writer.boolean(value)
    }

    pub fn null(&mut self, name: &str) -> Result<(), AllocError>
        ensures { Adds result self.old self.new (key name.now ∷ null ∷ []) }
    {
        self.writer.key(name)?;
        self.writer.null()
    }

    /// Begins a member that is an object. Its members follow, and `end`.
    pub fn begin(&mut self, name: &str) -> Result<(), AllocError>
        ensures { Adds result self.old self.new (key name.now ∷ begin_object ∷ []) }
    {
        self.writer.key(name)?;
        self.writer.begin_object()
    }

    pub fn end(&mut self) -> Result<(), AllocError>
        ensures { Adds result self.old self.new (end_object ∷ []) }
    {
        self.writer.end_object()
    }

    /// Begins a member that is a list of objects. Each begins with `item` and ends with `end`, and the list with
    /// `end_list`.
    pub fn begin_list(&mut self, name: &str) -> Result<(), AllocError>
        ensures { Adds result self.old self.new (key name.now ∷ begin_array ∷ []) }
    {
        self.writer.key(name)?;
        self.writer.begin_array()
    }

    pub fn item(&mut self) -> Result<(), AllocError>
        ensures { Adds result self.old self.new (begin_object ∷ []) }
    {
        self.writer.begin_object()
    }

    /// An item of a list that is a text.
    pub(crate) fn text_item(&mut self, value: &str) -> Result<(), AllocError>
        ensures { Adds result self.old self.new (string value.now ∷ []) }
    {
        self.writer.string(value)
    }

    pub fn end_list(&mut self) -> Result<(), AllocError>
        ensures { Adds result self.old self.new (end_array ∷ []) }
    {
        self.writer.end_array()
    }

    /// The object, and the end of its line.
    pub fn line(self) -> Result<Vec<u8>, AllocError>
        ensures { IfOk result (λ line.
            line.items ≡ self.before ++ (print (self.tokens ++ end_object ∷ []) ++ 10 ∷ [])) }
    {
        let Object { mut writer } = self;
        writer.end_object()?;
        let mut bytes = writer.into_inner();
        bytes.push(b'\n')?;
        Ok(bytes)
    }
}
