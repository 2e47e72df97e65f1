//! Texts that were met before, so that a name which comes again is kept once.
//!
//! `reading.rt` hands in what a line says, and gets the same with shared texts. What is met again after other texts took
//! its slot is kept a second time; no clause speaks of what is shared.
ghost use Rattle.std.specs.Prelude.{◌≡◌, IfOk, IfSome};

use crate::line::Line;
use crate::pooled::pooled_draft;
use crate::script::Form;
use sqlite_items::Boxed;
use std::alloc::Global;
use xod_base::{Memory, Query, Text, Value};
use xod_words::{Draft, Ent};

/// How many texts are remembered at most.
const SLOTS: u32 = 256;

/// For each slot the text with that hash that was met last.
#[derive(Drop)]
pub struct Pool {
    slots: Vec<Option<Text>>,
}

/// The slot of a text.
fn slot_of(text: &Text) -> usize {
    let mut hash = 0_u8;
    for byte in text.as_bytes() {
        hash = hash.wrapping_mul(31).wrapping_add(*byte);
    }
    usize::from(hash)
}

impl Pool {
    /// No text was met yet.
    pub fn new(alloc: Global) -> Result<Pool, Memory> {
        let mut slots = Vec::new(alloc);
        for _ in 0..SLOTS {
            slots.push(None)?;
        }
        Ok(Pool { slots })
    }

    /// The text of a slot, where it is the same one.
    fn met(&self, alloc: Global, slot: usize, text: &Text) -> Option<Text>
        ensures { IfSome result (λ met. met ≡ text.now) }
    {
        match self.slots.get(slot) {
            Some(Some(met)) if met.same(text) => met.try_clone(alloc).ok(),
            _ => None,
        }
    }

    /// Remembers a text, where memory is not refused.
    fn remember(&mut self, alloc: Global, slot: usize, text: &Text) {
        if let Ok(copy) = text.try_clone(alloc)
            && let Some(place) = self.slots.get_mut(slot)
        {
            *place = Some(copy);
        }
    }

    /// Has a text share its bytes with the one that was met before, where that is remembered.
    fn share(&mut self, alloc: Global, text: &mut Text)
        ensures { text.new ≡ text.old }
    {
        let slot = slot_of(text);
        match self.met(alloc, slot, text) {
            Some(met) => *text = met,
            None => self.remember(alloc, slot, text),
        }
    }

    /// A text once more, which shares its bytes with the one that was met before.
    pub fn shared(&mut self, alloc: Global, text: &Text) -> Result<Text, Memory>
        ensures { IfOk result (λ shared. shared ≡ text.now) }
    {
        let mut shared = text.try_clone(alloc)?;
        self.share(alloc, &mut shared);
        Ok(shared)
    }

    /// Shares the variable of an entity word.
    fn share_ent(&mut self, alloc: Global, ent: &mut Ent)
        ensures { ent.new ≡ ent.old }
    {
        if let Ent::Var(var) = ent {
            self.share(alloc, var);
        }
    }

    /// Shares the text of a value.
    fn share_value(&mut self, alloc: Global, value: &mut Value)
        ensures { value.new ≡ value.old }
    {
        if let Value::Text(text) = value {
            self.share(alloc, text);
        }
    }

    /// Shares two names.
    fn share_names(&mut self, alloc: Global, kind: &mut Text, name: &mut Text)
        ensures kind { kind.new ≡ kind.old }
        ensures name { name.new ≡ name.old }
    {
        self.share(alloc, kind);
        self.share(alloc, name);
    }

    /// Shares the names of an entity's property or link.
    fn share_pair(&mut self, alloc: Global, ent: &mut Ent, name: &mut Text)
        ensures ent { ent.new ≡ ent.old }
        ensures name { name.new ≡ name.old }
    {
        self.share_ent(alloc, ent);
        self.share(alloc, name);
    }

    /// Shares the names and texts of a query that has no parts.
    pub fn share_leaf(&mut self, alloc: Global, query: &mut Query)
        ensures { query.new ≡ query.old }
    {
        match query {
            Query::All { kind } => self.share(alloc, kind),
            Query::Find { kind, prop, value } => {
                self.share_names(alloc, kind, prop);
                self.share_value(alloc, value);
            }
            Query::Range {
                kind,
                prop,
                low,
                high,
            } => {
                self.share_names(alloc, kind, prop);
                self.share_value(alloc, low);
                self.share_value(alloc, high);
            }
            Query::Prefix { kind, prop, text } => {
                self.share_names(alloc, kind, prop);
                self.share(alloc, text);
            }
            Query::With { kind, prop } => self.share_names(alloc, kind, prop),
            Query::WithLink { kind, link } => self.share_names(alloc, kind, link),
            Query::Linked { kind, link, .. } => self.share_names(alloc, kind, link),
            Query::LinksOf { link, .. } => self.share(alloc, link),
            _ => {}
        }
    }

    /// Shares the names and texts of a query and its parts. Where memory is refused, they stay as they are.
    fn share_draft(&mut self, alloc: Global, draft: &mut Boxed<Draft>)
        ensures { draft.new ≡ draft.old }
    {
        if let Ok(pooled) = pooled_draft(alloc, self, draft.get()) {
            *draft = pooled;
        }
    }

    /// Shares the names and texts of a form.
    fn share_form(&mut self, alloc: Global, form: &mut Form)
        ensures { form.new ≡ form.old }
    {
        match form {
            Form::New { kind, var } => self.share_names(alloc, kind, var),
            Form::Set { ent, prop, value } => {
                self.share_pair(alloc, ent, prop);
                self.share_value(alloc, value);
            }
            Form::Link {
                source,
                link,
                target,
            } => {
                self.share_pair(alloc, source, link);
                self.share_ent(alloc, target);
            }
            Form::SetLink {
                source,
                link,
                target,
            } => {
                self.share_pair(alloc, source, link);
                self.share_ent(alloc, target);
            }
            Form::Unlink {
                source,
                link,
                target,
            } => {
                self.share_pair(alloc, source, link);
                self.share_ent(alloc, target);
            }
            Form::Unset { ent, prop } => self.share_pair(alloc, ent, prop),
            Form::UnlinkAll { source, link } => self.share_pair(alloc, source, link),
            Form::Delete { ent } => self.share_ent(alloc, ent),
            Form::Show { ent } => self.share_ent(alloc, ent),
            Form::Query { draft } => self.share_draft(alloc, draft),
            Form::Count { draft } => self.share_draft(alloc, draft),
            _ => {}
        }
    }

    /// Shares the names and texts of a line.
    pub fn share_line(&mut self, alloc: Global, said: &mut Line)
        ensures { said.new ≡ said.old }
    {
        if let Line::Statement(form) = said {
            self.share_form(alloc, form);
        }
    }
}
