//! The work of writing a load's files: what is given for it, and what comes of it.
use std::alloc::{AllocError, Global};
use std::marker::{Model, PhantomData};
use xdb_device::FileRef;
use xdb_key::{Extent, Ops};
use xdb_order::Work;

/// The tables of a load: each one's reserved number, and operations of which `ExtTable::build` makes a table.
#[derive(Debug, Drop)]
pub struct LoadParts {
    tables: Vec<(u64, Ops)>,
}

impl Model for LoadParts {
    ghost use Rattle.std.specs.Prelude.{ℕ, List};
    ghost use Rattle.xdb_key.specs.declared.op.Op.{Op};
    ghost use Rattle.xdb_ext.specs.Loads.{AreTables};

    ghost Value = { List (ℕ × List Op) };

    ghost view = { λ p. p.tables.items };

    ghost invariant = { λ p. AreTables p.tables.items };
}

impl LoadParts {
    ghost use Rattle.std.specs.Prelude.{◌≡◌, [], ◌∷◌, ◌++◌, OnOk, OnErr, IsTrue};
    ghost use Rattle.xdb_key.specs.Ops.{is_table};
    ghost use Rattle.xdb_ext.specs.Loads.{AreTables};

    /// No tables. It takes no memory.
    pub fn empty(alloc: Global) -> Self
        ensures { result ≡ [] }
    {
        LoadParts {
            tables: Vec::new(alloc),
        }
    }

    /// Adds a table behind the others. `is_table` tells whether operations make one.
    pub fn add(&mut self, num: u64, ops: Ops) -> Result<(), AllocError>
        requires { IsTrue (is_table ops) }
        ensures added { OnOk result (self.new ≡ self.old ++ (num, ops) ∷ []) }
        ensures unchanged { OnErr result (self.new ≡ self.old) }
    {
        self.tables.push((num, ops))?;
        Ok(())
    }

    pub fn tables(&self) -> &[(u64, Ops)]
        ensures tables { result.now ≡ self.now }
        ensures accepted { AreTables self.now }
    {
        &self.tables
    }
}

/// The files of a load, in the order of its tables: each one's number, extent and file.
#[derive(Debug, Drop)]
pub struct LoadFiles<F> {
    pub files: Vec<(u64, Extent, F)>,
}

/// The work of writing the files of a load.
pub struct LoadWork<F> {
    file: PhantomData<F>,
}

impl<F: FileRef> Work for LoadWork<F> {
    ghost use Rattle.xdb_ext.specs.Loads.{FitsLoad};

    type In = LoadParts;

    type Out = LoadFiles<F>;

    // The files have the tables' numbers, bounds and content, in order.
    ghost fits = { λ given out. FitsLoad F.size F.bytes given out.files.items };
}
