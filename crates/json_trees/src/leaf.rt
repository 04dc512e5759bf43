//! What may be at a key of a tree: a scalar, or in a patch also a removal.
ghost use Rattle.std.specs.Prelude.{◌≡◌, ◌≢◌, ◌++◌, Some, None, IfOk, IfErr, OnOk};
ghost use Rattle.serde_json.specs.View.{view};
ghost use Rattle.json_trees.specs.Nested.{IsWritable};
ghost use Rattle.json_trees.specs.Written.{data_tokens};
ghost use Rattle.json_trees.specs.declared.tree_error.TreeError.TheVariants.{BadValue, Memory};

use crate::reading::scalar_of;
use crate::writing::write_scalar;
use crate::{Pending, Scalar, ScalarError, TreeError};
use json::Writer;
use serde_json::Value;
use std::alloc::{AllocError, Global};

/// A value of a tree that has no children.
pub trait Leaf: Sized {
    ghost use Rattle.std.specs.Prelude.{Option};
    ghost use Rattle.serde_json.specs.Data.{Data};

    // Which leaf a JSON value is, if it is one.
    ghost leaf: { Data → Option Self };

    // The JSON value of a leaf.
    ghost written: { Self → Data };

    /// The leaf that a JSON value is.
    fn of_value(alloc: Global, value: Value) -> Result<Self, TreeError>
        ensures ok { IfOk result (λ v. leaf (view value) ≡ Some v) }
        ensures err { IfErr result
            (λ e. e ≢ Memory → (e ≡ BadValue) × (leaf (view value) ≡ None)) };

    /// Writes the tokens of the leaf. The only error is out of memory; after it the writer's tokens
    /// are any, so that what was written is to be dropped.
    fn write(&self, writer: &mut Writer) -> Result<(), AllocError>
        ensures tokens { OnOk result
            (writer.new.tokens ≡ writer.old.tokens ++ data_tokens (written self.now)) }
        ensures writable { OnOk result (IsWritable leaf self.now (written self.now)) }
        ensures before { writer.new.before ≡ writer.old.before };
}

impl Leaf for Scalar {
    ghost use Rattle.json_trees.specs.Scalar.{scalar_data};
    ghost use Rattle.json_trees.specs.Tree.{scalar_leaf};

    ghost leaf = { scalar_leaf };

    ghost written = { scalar_data };

    fn of_value(alloc: Global, value: Value) -> Result<Scalar, TreeError> {
        match scalar_of(alloc, value) {
            Ok(scalar) => Ok(scalar),
            Err(ScalarError::Memory) => Err(TreeError::Memory),
            Err(_) => Err(TreeError::BadValue),
        }
    }

    fn write(&self, writer: &mut Writer) -> Result<(), AllocError> {
        write_scalar(writer, self)
    }
}

impl Leaf for Pending {
    ghost use Rattle.json_trees.specs.Tree.{pending_leaf, pending_data};

    ghost leaf = { pending_leaf };

    ghost written = { pending_data };

    fn of_value(alloc: Global, value: Value) -> Result<Pending, TreeError> {
        match value {
            Value::Null => Ok(Pending::Gone),
            value => match Scalar::of_value(alloc, value) {
                Ok(scalar) => Ok(Pending::Put(scalar)),
                Err(e) => Err(e),
            },
        }
    }

    fn write(&self, writer: &mut Writer) -> Result<(), AllocError> {
        match self {
            Pending::Put(scalar) => write_scalar(writer, scalar),
            Pending::Gone => writer.null(),
        }
    }
}
