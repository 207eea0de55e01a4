//! Parameters, and lists of them.

ghost use Rattle.std.specs.Prelude.{◌≡◌, ◌<◌, map, min, IfOk, OnOk, OnErr, IfSome, IsNone, IfNone, ◌↔◌, IsTrue, Some};
ghost use Rattle.p21_parse.specs.Tree.{none, count, listed, tree_at, with_last};
ghost use Rattle.p21_parse.specs.View.{tree_of, trees_of};

use nc_base::{NcText, NoMemory, Number};
use std::alloc::Global;

/// A parameter (ISO 10303-21, parameter lists). Texts are the raw bytes between the marks.
#[derive(Debug, Drop)]
#[cycle(param)]
pub enum Param {
    Int(NcText),
    Real(NcText),
    Text(NcText),
    Enumeration(NcText),
    Reference(Number),
    Binary(NcText),
    /// `$`.
    Unset,
    /// `*`.
    Derived,
    List(ParamList),
    /// A keyword with its one parameter.
    Typed(NcText, ParamList),
}

/// A list of at most 4,294,967,295 parameters. It keeps the allocator that it was made with.
#[derive(Debug, Drop)]
#[cycle(param)]
pub struct ParamList {
    params: Vec<Param>,
}

impl ParamList {
    /// The empty list, which takes no memory.
    pub fn new(alloc: Global) -> Self
        ensures { trees_of result ≡ none }
    {
        ParamList {
            params: Vec::new(alloc),
        }
    }

    /// The empty list, with room for so many parameters: a hint, of which no clause promises that they fit without more memory.
    pub fn with_capacity(alloc: Global, capacity: u32) -> Result<Self, NoMemory>
        ensures { IfOk result (λ list. trees_of list ≡ none) }
    {
        Ok(ParamList {
            params: Vec::with_capacity(alloc, capacity as usize)?,
        })
    }

    /// How many parameters there are. Past 4,294,967,295, which no call of this type makes, the number stands still.
    pub fn len(&self) -> u32
        ensures { result ≡ min (count (trees_of self.now)) 4294967295 }
    {
        let len = self.params.len();
        if len < u32::MAX as usize {
            len as u32
        } else {
            u32::MAX
        }
    }

    /// Whether there are no parameters.
    pub fn is_empty(&self) -> bool
        ensures { IsTrue result ↔ (trees_of self.now ≡ none) }
    {
        self.params.is_empty()
    }

    /// The parameters in order.
    pub fn as_slice(&self) -> &[Param]
        ensures { map tree_of result.now ≡ listed (trees_of self.now) }
    {
        self.params.as_slice()
    }

    /// The parameter at index `i`, counted from 0.
    pub fn at(&self, i: u32) -> &Param
        requires { i < count (trees_of self.now) }
        ensures { tree_at (trees_of self.now) i ≡ Some (tree_of result.now) }
    {
        &self.params[i as usize]
    }

    /// Puts a parameter at the end. Where memory runs out the list stays as it was, and the parameter is dropped.
    pub fn push(&mut self, param: Param) -> Result<(), NoMemory>
        ensures ok { OnOk result (trees_of self.new ≡ with_last (trees_of self.old) (tree_of param)) }
        ensures err { OnErr result (trees_of self.new ≡ trees_of self.old) }
    {
        if self.params.len() >= u32::MAX as usize {
            return Err(NoMemory);
        }
        self.params.push(param)?;
        Ok(())
    }

    /// Takes the last parameter. None comes exactly where the list is empty.
    pub fn pop(&mut self) -> Option<Param>
        ensures empty { IsNone result ↔ (trees_of self.old ≡ none) }
        ensures last { IfSome result (λ param. trees_of self.old ≡ with_last (trees_of self.new) (tree_of param)) }
        ensures none { IfNone result (trees_of self.new ≡ trees_of self.old) }
    {
        self.params.pop()
    }
}
