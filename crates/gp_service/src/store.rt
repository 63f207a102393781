//! The key store as a service.
ghost use Rattle.gp_words.specs.Tokens.{texts};
ghost use Rattle.gp_store.specs.FormViews.{form_view};
ghost use Rattle.gp_store.specs.Forms.{op_of_form};
ghost use Rattle.gp_service.specs.Answers.{Answers};
ghost use Rattle.gp_service.specs.Stores.{store_profile, store_said, some_drafted};
ghost use Rattle.gp_service.specs.StoreLaws.{store_known};
ghost use Rattle.std.specs.Prelude.{Some};

use crate::service::{Service, Unsaid};
use gp_command::{Draft, Key, NoMemory};
use gp_replica::Replica;
use gp_store::{KeyStore, OpForm, draft_of, op_form, op_of_form};
use std::alloc::Global;
use std::collections::BTreeMap;

// The draft of the operation of a form.
fn draft_of_form(alloc: Global, form: OpForm<'_>) -> Result<Draft, Unsaid>
    ensures { Answers (Some (some_drafted (op_of_form (form_view form.entry)))) result }
{
    match op_of_form(form) {
        Ok(op) => match draft_of(alloc, op) {
            Ok(draft) => Ok(draft),
            Err(_) => Err(Unsaid::NoMemory),
        },
        Err(fault) => Err(Unsaid::Fault(fault)),
    }
}

impl Service for KeyStore {
    ghost profile = { store_profile };

    ghost known = { store_known };

    #[tactic(auto, unfolding(crate::specs::Stores::store_language))]
    fn draft(alloc: Global, words: &[&[u8]]) -> Result<Draft, Unsaid> {
        match op_form(words) {
            Some(form) => draft_of_form(alloc, form),
            None => Err(Unsaid::NoOperation),
        }
    }

    fn pairs(&self) -> &BTreeMap<Key, u64> {
        KeyStore::pairs(self)
    }

    fn push_totals(
        _learner: u32,
        _replica: &Replica<KeyStore>,
        _to: &mut Vec<u8>,
    ) -> Result<(), NoMemory> {
        Ok(())
    }
}
