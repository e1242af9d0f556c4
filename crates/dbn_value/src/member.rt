use super::copying::CopyIn;
use super::row::Row;
use super::value::Value;
use std::alloc::{AllocError, Global};

/// One member of a group of firings.
#[derive(Debug, PartialEq, Eq, Drop)]
pub struct Member {
    /// The number of the transition, from 0.
    pub t: usize,
    /// The values of its bound variables, in their order.
    pub row: Row<Value>,
}

impl CopyIn for Member {
    fn copy_in(&self, alloc: Global) -> Result<Member, AllocError> {
        Ok(Member {
            t: self.t,
            row: self.row.copy_in(alloc)?,
        })
    }
}
