//! Writing the members of a reply.

ghost use Rattle.std.specs.Prelude.{◌≡◌, ◌∷◌, ◌++◌, [], IfOk, map, string_bytes};
ghost use Rattle.std.specs.List.{flat_map};
ghost use Rattle.json.specs.Print.{print};
ghost use Rattle.json.specs.Token.{begin_object, end_object, begin_array, end_array, key, string};
ghost use Rattle.desk_eido.specs.ReplyLine as content;
ghost use Rattle.desk_eido.specs.ReplyLine.{json_members, optional_count};
ghost use Rattle.desk_eido.specs.Writing.{with_content, with_optional, with_all, row_tokens};

use desk_types::{CallId, IncidentId, UnitName, WantOfMemory};
use json::Writer;
use std::alloc::Global;
use std::marker::Model;

/// The bytes that a reply has room for from the first.
const FIRST_BYTES: usize = 160;

/// A value that is written as its text.
pub(crate) trait Named {
    ghost use Rattle.std.specs.Prelude.{ℕ, List};

    ghost text: { Self → List ℕ };

    fn text(&self) -> &str
        ensures { result.now ≡ text self.now };
}

impl Named for CallId {
    ghost text = { λ id. id };

    fn text(&self) -> &str {
        self.as_text()
    }
}

impl Named for IncidentId {
    ghost text = { λ id. id };

    fn text(&self) -> &str {
        self.as_text()
    }
}

impl Named for UnitName {
    ghost text = { λ name. name };

    fn text(&self) -> &str {
        self.as_text()
    }
}

/// A value that is written as an object of its own.
pub(crate) trait Row {
    ghost use Rattle.std.specs.Prelude.{List};
    ghost use Rattle.desk_eido.specs.ReplyLine.{ReplyMember};

    ghost members: { Self → List ReplyMember };

    /// With the members of the object.
    fn with_members(&self, row: ReplyWriter) -> Result<ReplyWriter, WantOfMemory>
        ensures { IfOk result (λ w. w ≡ with_all (members self.now) row) };
}

/// The object of a reply, of which members are written. They are handed in by the order of their names' bytes. A
/// contract sees the tokens that stand there.
pub(crate) struct ReplyWriter {
    out: Writer,
}

// Written out, so that callers need not prove each part's drop.
impl Drop for ReplyWriter {
    fn drop(self) {
        let ReplyWriter { out: _ } = self;
    }
}

impl Model for ReplyWriter {
    ghost use Rattle.std.specs.Prelude.{◌≡◌, [], List};
    ghost use Rattle.json.specs.Token.{Token};

    ghost Value = { List Token };

    ghost view = { λ w. w.out.tokens };

    ghost invariant = { λ w. w.out.before ≡ [] };
}

impl ReplyWriter {
    /// An object without members.
    pub(crate) fn new(alloc: Global) -> Result<ReplyWriter, WantOfMemory>
        ensures { IfOk result (λ w. w ≡ begin_object ∷ []) }
    {
        let mut out = Writer::new(Vec::with_capacity(alloc, FIRST_BYTES)?);
        out.begin_object()?;
        Ok(ReplyWriter { out })
    }

    /// With a whole number.
    pub(crate) fn count(self, name: &str, number: u64) -> Result<ReplyWriter, WantOfMemory>
        ensures { IfOk result (λ w. w ≡ with_content name.now (content.count number) self) }
    {
        let ReplyWriter { mut out } = self;
        out.key(name)?;
        out.u64(number)?;
        Ok(ReplyWriter { out })
    }

    /// With an instant, in whole seconds since 1970.
    pub(crate) fn seconds(self, name: &str, seconds: i64) -> Result<ReplyWriter, WantOfMemory>
        ensures { IfOk result (λ w. w ≡ with_content name.now (content.seconds seconds) self) }
    {
        let ReplyWriter { mut out } = self;
        out.key(name)?;
        out.i64(seconds)?;
        Ok(ReplyWriter { out })
    }

    /// With one member more, whose value is a text.
    pub(crate) fn text(self, name: &str, text: &str) -> Result<ReplyWriter, WantOfMemory>
        ensures { IfOk result (λ w. w ≡ with_content name.now (content.text text.now) self) }
    {
        let ReplyWriter { mut out } = self;
        out.key(name)?;
        out.string(text)?;
        Ok(ReplyWriter { out })
    }

    /// With the texts of values, in their order.
    pub(crate) fn texts<T: Named>(
        self,
        name: &str,
        items: &[T],
    ) -> Result<ReplyWriter, WantOfMemory>
        ensures { IfOk result (λ w. w ≡ self ++ (key name.now ∷ begin_array
            ∷ (map (λ x. string (T.Named.text x)) items.now ++ end_array ∷ []))) }
    {
        let ReplyWriter { mut out } = self;
        out.key(name)?;
        out.begin_array()?;
        for item in items {
            out.string(item.text())?;
        }
        out.end_array()?;
        Ok(ReplyWriter { out })
    }

    fn begin_row(self) -> Result<ReplyWriter, WantOfMemory>
        ensures { IfOk result (λ w. w ≡ self ++ begin_object ∷ []) }
    {
        let ReplyWriter { mut out } = self;
        out.begin_object()?;
        Ok(ReplyWriter { out })
    }

    fn end_row(self) -> Result<ReplyWriter, WantOfMemory>
        ensures { IfOk result (λ w. w ≡ self ++ end_object ∷ []) }
    {
        let ReplyWriter { mut out } = self;
        out.end_object()?;
        Ok(ReplyWriter { out })
    }

    fn begin_rows(self, name: &str) -> Result<ReplyWriter, WantOfMemory>
        ensures { IfOk result (λ w. w ≡ self ++ key name.now ∷ begin_array ∷ []) }
    {
        let ReplyWriter { mut out } = self;
        out.key(name)?;
        out.begin_array()?;
        Ok(ReplyWriter { out })
    }

    fn end_rows(self) -> Result<ReplyWriter, WantOfMemory>
        ensures { IfOk result (λ w. w ≡ self ++ end_array ∷ []) }
    {
        let ReplyWriter { mut out } = self;
        out.end_array()?;
        Ok(ReplyWriter { out })
    }

    /// With the object of a value, after what stands in an array.
    fn row<T: Row>(self, item: &T) -> Result<ReplyWriter, WantOfMemory>
        ensures { IfOk result (λ w. w ≡ self ++ row_tokens (json_members (T.Row.members item.now))) }
    {
        item.with_members(self.begin_row()?)?.end_row()
    }

    /// With the objects of values, in their order.
    fn each_row<T: Row>(self, items: &[T]) -> Result<ReplyWriter, WantOfMemory>
        ensures { IfOk result (λ w.
            w ≡ self ++ flat_map row_tokens (map (λ x. json_members (T.Row.members x)) items.now)) }
    {
        let mut reply = self;
        for item in items {
            reply = reply.row(item)?;
        }
        Ok(reply)
    }

    /// With an array of the objects of values, in their order.
    pub(crate) fn rows<T: Row>(self, name: &str, items: &[T]) -> Result<ReplyWriter, WantOfMemory>
        ensures { IfOk result (λ w.
            w ≡ with_content name.now (content.rows (map (λ x. json_members (T.Row.members x)) items.now)) self) }
    {
        self.begin_rows(name)?.each_row(items)?.end_rows()
    }

    /// With a whole number, where there is one.
    pub(crate) fn optional_count(
        self,
        name: &str,
        number: Option<u64>,
    ) -> Result<ReplyWriter, WantOfMemory>
        ensures { IfOk result (λ w. w ≡ with_all (optional_count name.now number) self) }
    {
        match number {
            Some(number) => self.count(name, number),
            None => Ok(self),
        }
    }

    /// With an incident's identifier, where there is one.
    pub(crate) fn optional_incident(
        self,
        name: &str,
        incident: &Option<IncidentId>,
    ) -> Result<ReplyWriter, WantOfMemory>
        ensures { IfOk result (λ w. w ≡ with_optional name.now incident.now self) }
    {
        match incident {
            Some(id) => self.text(name, id.as_text()),
            None => Ok(self),
        }
    }

    /// The line: the object at its end, and a newline.
    pub(crate) fn into_line(self) -> Result<String, WantOfMemory>
        ensures { IfOk result (λ t. string_bytes t ≡ print (self ++ end_object ∷ []) ++ 10 ∷ []) }
    {
        let ReplyWriter { mut out } = self;
        out.end_object()?;
        match String::from_utf8(out.into_inner()) {
            Ok(mut line) => {
                line.push_str("\n")?;
                Ok(line)
            }
            Err(_) => unreachable!(),
        }
    }
}
