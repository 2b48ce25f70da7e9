//! Writing the members of a document.

ghost use Rattle.std.specs.Prelude.{◌≡◌, ◌∷◌, ◌++◌, [], IfOk, string_bytes};
ghost use Rattle.json.specs.Print.{print};
ghost use Rattle.json.specs.Token.{begin_object, end_object};
ghost use Rattle.desk_eido.specs.ReplyLine as content;
ghost use Rattle.desk_eido.specs.Writing.{with_content, with_optional};

use desk_types::{CallId, IncidentId, WantOfMemory};
use json::Writer;
use std::alloc::Global;
use std::marker::Model;

/// The bytes that a document has room for from the first.
const FIRST_BYTES: usize = 160;

/// The object of a document, of which members are written in the order in which they are handed in. A contract sees the
/// tokens that stand there.
pub(crate) struct DocumentWriter {
    out: Writer,
}

// Written out, so that callers need not prove each part's drop.
impl Drop for DocumentWriter {
    fn drop(self) {
        let DocumentWriter { out: _ } = self;
    }
}

impl Model for DocumentWriter {
    ghost use Rattle.std.specs.Prelude.{◌≡◌, [], List};
    ghost use Rattle.json.specs.Token.{Token};

    ghost Value = { List Token };

    ghost view = { λ w. w.out.tokens };

    ghost invariant = { λ w. w.out.before ≡ [] };
}

impl DocumentWriter {
    /// An object without members.
    pub(crate) fn new(alloc: Global) -> Result<DocumentWriter, WantOfMemory>
        ensures { IfOk result (λ w. w ≡ begin_object ∷ []) }
    {
        let mut out = Writer::new(Vec::with_capacity(alloc, FIRST_BYTES)?);
        out.begin_object()?;
        Ok(DocumentWriter { out })
    }

    /// With a whole number.
    pub(crate) fn count(self, name: &str, number: u64) -> Result<DocumentWriter, WantOfMemory>
        ensures { IfOk result (λ w. w ≡ with_content name.now (content.count number) self) }
    {
        let DocumentWriter { mut out } = self;
        out.key(name)?;
        out.u64(number)?;
        Ok(DocumentWriter { out })
    }

    /// With a text.
    pub(crate) fn text(self, name: &str, text: &str) -> Result<DocumentWriter, WantOfMemory>
        ensures { IfOk result (λ w. w ≡ with_content name.now (content.text text.now) self) }
    {
        let DocumentWriter { mut out } = self;
        out.key(name)?;
        out.string(text)?;
        Ok(DocumentWriter { out })
    }

    /// With an incident's identifier, where there is one.
    pub(crate) fn optional_incident(
        self,
        name: &str,
        incident: &Option<IncidentId>,
    ) -> Result<DocumentWriter, WantOfMemory>
        ensures { IfOk result (λ w. w ≡ with_optional name.now incident.now self) }
    {
        match incident {
            Some(id) => self.text(name, id.as_text()),
            None => Ok(self),
        }
    }

    /// With a call's identifier, where there is one.
    pub(crate) fn optional_call(
        self,
        name: &str,
        call: &Option<CallId>,
    ) -> Result<DocumentWriter, WantOfMemory>
        ensures { IfOk result (λ w. w ≡ with_optional name.now call.now self) }
    {
        match call {
            Some(id) => self.text(name, id.as_text()),
            None => Ok(self),
        }
    }

    /// The line: the object at its end, and a newline.
    pub(crate) fn into_line(self) -> Result<String, WantOfMemory>
        ensures { IfOk result (λ t. string_bytes t ≡ print (self ++ end_object ∷ []) ++ 10 ∷ []) }
    {
        let DocumentWriter { mut out } = self;
        out.end_object()?;
        match String::from_utf8(out.into_inner()) {
            Ok(mut line) => {
                line.push_str("\n")?;
                Ok(line)
            }
            Err(_) => unreachable!(),
        }
    }
}
