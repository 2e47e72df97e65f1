//! The variables of a session.
//!
//! A name is looked up by its bytes. What a statement's entity words stand for is in `specs/Variables.antt`.
ghost use Rattle.std.specs.Prelude.{◌≡◌, ◌∷◌, [], Option, None, IfSome, IsTrue, IfOk, OnOk, OnErr, option_map};
ghost use Rattle.std.specs.FinMap.{empty, get as id_of, insert};
ghost use Rattle.xod_base.specs.Queries.{is_id};
ghost use Rattle.xod_session.specs.Variables.{first_unset as unset_of, id_at as id_of_word, id_in as id_of_set_word, words_in, words_of};

use std::alloc::Global;
use std::collections::BTreeMap;
use std::marker::Model;
use xod_base::{EntityId, Memory, Text};

/// Ids by name.
#[derive(Drop)]
pub struct Variables {
    ids: BTreeMap<Vec<u8>, EntityId>,
}

impl Model for Variables {
    ghost use Rattle.xod_session.specs.Variables.{Variables as VariablesValue};
    ghost use Rattle.xod_session.specs.VariableMaps.{variables_code, variables_of};

    ghost Value = { VariablesValue };

    ghost coded = { variables_code };

    ghost view = { λ variables. variables_of variables.ids.entries };
}

impl Variables {
    /// No variables, which takes no memory.
    pub fn new(alloc: Global) -> Variables
        ensures { result ≡ empty }
    {
        Variables {
            ids: BTreeMap::new(alloc),
        }
    }

    /// The id of a variable, and `None` where it is unset.
    pub fn get(&self, name: &Text) -> Option<EntityId>
        ensures value { result ≡ id_of self.now name.now }
        ensures id { IfSome result (λ id. IsTrue (is_id id)) }
    {
        self.ids.get(name.as_bytes()).copied()
    }

    /// Sets a variable. A refusal leaves the variables as they were.
    pub fn set(&mut self, alloc: Global, name: &Text, id: EntityId) -> Result<(), Memory>
        ensures ok { OnOk result (self.new ≡ insert self.old name.now id) }
        ensures err { OnErr result (self.new ≡ self.old) }
    {
        let key = Vec::from_slice(alloc, name.as_bytes())?;
        self.ids.insert(key, id)?;
        Ok(())
    }
}
