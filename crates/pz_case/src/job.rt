//! The job that is played: the cases of its sessions.

ghost use Rattle.std.specs.Prelude.{◌≡◌, ◌<◌, ◌≤◌, length, slice_get, Some};

use crate::case::Case;
use pz_record::limits::MOST_ENTRIES;
use std::marker::Model;

/// The cases of a job, at most `MOST_ENTRIES`, which contracts see as their list.
#[derive(Drop)]
pub struct Job {
    cases: Vec<Case>,
}

impl Model for Job {
    ghost use Rattle.std.specs.Prelude.{List, ◌≤◌, length};
    ghost use Rattle.pz_record.specs.declared.limits.TheConstants.{MOST_ENTRIES};
    ghost use Rattle.pz_case.specs.declared.case.Case.{Case};

    ghost Value = { List Case };

    ghost view = { λ j. j.cases.items };

    ghost invariant = { λ j. length j.cases.items ≤ MOST_ENTRIES };
}

impl Job {
    /// A job of these cases.
    pub fn new(cases: Vec<Case>) -> Job
        requires { length cases.items ≤ MOST_ENTRIES }
        ensures { result ≡ cases.items }
    {
        Job { cases }
    }

    /// The number of cases.
    pub fn len(&self) -> usize
        ensures count { result ≡ length self.now }
        ensures few { result ≤ MOST_ENTRIES }
    {
        self.cases.len()
    }

    /// The case of a number, counted from 0.
    pub fn case(&self, number: usize) -> &Case
        requires { number < length self.now }
        ensures { slice_get self.now number ≡ Some result.now }
    {
        &self.cases[number]
    }

    /// The case of a number, counted from 0, if there is one. The others are dropped.
    pub fn into_case(self, number: usize) -> Option<Case>
        ensures { result ≡ slice_get self number }
    {
        let Job { mut cases } = self;
        if number < cases.len() {
            Some(cases.swap_remove(number))
        } else {
            None
        }
    }
}
