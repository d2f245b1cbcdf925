//! A copy of an expression of any depth. It takes memory for the copy and for the lists that are
//! begun, and no stack. Begin with `Sexp::copy`, whose clause says all.

ghost use Rattle.std.specs.Prelude.{◌≡◌, ◌++◌, ◌+◌, ◌*◌, ◌<◌, IfOk};
ghost use Rattle.sexp_canonical.specs.{View.trees, declared.tree.Sexp.Sexp};

use crate::tree::Sexp;
use std::alloc::{AllocError, Global};

// A list that is being copied: its first items are copied, and the others are left.
#[derive(Drop)]
struct Begun<'a> {
    copied: Vec<Sexp>,
    left: &'a [Sexp],
}

impl Sexp {
    /// The same expression once more, of any depth. The depth takes memory, and no stack.
    pub fn copy(&self, alloc: Global) -> Result<Sexp, AllocError>
        ensures { IfOk result (λ tree. tree ≡ self.now) }
    {
        match self {
            Sexp::Atom(bytes) => Sexp::atom(alloc, bytes.as_slice()),
            Sexp::List(items) => copy_of_list(alloc, items.as_slice()),
        }
    }
}

fn copy_of_list(alloc: Global, items: &[Sexp]) -> Result<Sexp, AllocError>
    ensures { IfOk result (λ tree. tree ≡ Sexp.List (trees items.now)) }
{
    // The lists around the one that is copied, the outermost first.
    let mut outer: Vec<Begun> = Vec::new(alloc);
    let mut copied = Vec::new(alloc);
    let mut left = items;
    loop {
        let Some((item, others)) = left.split_first() else {
            let tree = Sexp::list(copied);
            let Some(around) = outer.pop() else {
                return Ok(tree);
            };
            copied = around.copied;
            copied.push(tree)?;
            left = around.left;
            continue;
        };
        left = others;
        match item {
            Sexp::Atom(bytes) => copied.push(Sexp::atom(alloc, bytes.as_slice())?)?,
            Sexp::List(inner) => {
                outer.push(Begun { copied, left })?;
                copied = Vec::new(alloc);
                left = inner.as_slice();
            }
        }
    }
}
