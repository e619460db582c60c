// Copies and comparisons of projects.

use crate::projects::Project;
use kv_names::{NoMemory, Plain};
use std::alloc::Global;

impl Plain for Project {
    fn copy(&self, alloc: Global) -> Result<Project, NoMemory> {
        Ok(Project {
            units: self.units.copy(alloc)?,
        })
    }

    fn same(&self, other: &Project) -> bool {
        self.units.same(&other.units)
    }
}
