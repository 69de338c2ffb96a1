//! The steps so far, and what they say of each path.

ghost use Rattle.std.specs.Prelude.{◌≡◌, ◌++◌, ◌∷◌, [], OnOk, OnErr, string_bytes};
ghost use Rattle.std.specs.BTreeMap.{get_by_text};
ghost use Rattle.protobuf_parse_load.specs.Loads.{step_view, steps_view};
ghost use Rattle.protobuf_parse_load.specs.Steps.{known};
ghost use Rattle.protobuf_parse_load.specs.StepLists.{Learns, LearnsOf};

use crate::step::{LoadStep, Unfollowed};
use std::alloc::{AllocError, Global};
use std::collections::BTreeMap;
use std::marker::Model;

/// What is known of a path.
#[derive(Clone, Copy)]
pub enum Known {
    /// Its file can't be read or parsed: its number among such files.
    Unreadable(usize),
    /// It is loaded: how many files the longest chain of imports from it has.
    Loaded(usize),
}

/// The steps of a load so far, and what is known of the paths in them.
#[derive(Drop)]
pub struct KnownSteps {
    steps: Vec<LoadStep>,
    /// By paths. The map is ordered, since paths come from strangers, who could choose many with
    /// one hash.
    paths: BTreeMap<String, Known>,
}

impl Model for KnownSteps {
    ghost use Rattle.std.specs.Coded.{codes};
    ghost use Rattle.protobuf_parse_load.specs.contracts.step.LoadStep as step;
    ghost use Rattle.protobuf_parse_load.specs.StepLists.{StepList, HasKnown};

    ghost Value = { StepList };

    ghost coded = { Prim.hlevel (codes, step.the_row.coded) };

    ghost view = { λ a. record { list = a.steps.items } };

    ghost invariant = { λ a. HasKnown a.paths a.steps.items };
}

impl KnownSteps {
    /// No steps.
    pub fn new(alloc: Global) -> Self
        ensures { result.list ≡ [] }
    {
        KnownSteps {
            steps: Vec::new(alloc),
            paths: BTreeMap::new(alloc),
        }
    }

    /// What is known of the path.
    pub fn find(&self, path: &str) -> Option<Known>
        ensures { result ≡ known path.now (steps_view self.now.list) }
    {
        self.paths.get(path).copied()
    }

    /// Adds a step. Where memory is short, nothing is added.
    pub fn push(&mut self, step: LoadStep) -> Result<(), AllocError>
        ensures ok { OnOk result (self.new.list ≡ self.old.list ++ step ∷ []) }
        ensures err { OnErr result (self.new.list ≡ self.old.list) }
    {
        self.steps.reserve(1)?;
        learn(&mut self.paths, &step)?;
        self.steps.push_reserved(step);
        Ok(())
    }

    /// The steps.
    pub fn into_steps(self) -> Vec<LoadStep>
        ensures { result.items ≡ self.list }
    {
        let KnownSteps { steps, paths: _ } = self;
        steps
    }
}

/// Notes what a step says of a path of which nothing is known yet.
fn learn(paths: &mut BTreeMap<String, Known>, step: &LoadStep) -> Result<(), AllocError>
    ensures ok { OnOk result (Learns paths.old paths.new (step_view step.now)) }
    ensures err { OnErr result (paths.new.entries ≡ paths.old.entries) }
{
    match step {
        LoadStep::Told {
            path,
            why: Unfollowed::Unread(number),
            ..
        } => learn_of(paths, path, Known::Unreadable(*number)),
        LoadStep::Closed { path, height } => learn_of(paths, path, Known::Loaded(*height)),
        _ => Ok(()),
    }
}

/// Notes this of a path, if nothing is known of it yet.
fn learn_of(
    paths: &mut BTreeMap<String, Known>,
    path: &String,
    known: Known,
) -> Result<(), AllocError>
    ensures ok { OnOk result (LearnsOf paths.old paths.new (string_bytes path.now) known) }
    ensures err { OnErr result (paths.new.entries ≡ paths.old.entries) }
{
    let key = path.clone()?;
    paths.entry(key)?.or_insert(known);
    Ok(())
}
