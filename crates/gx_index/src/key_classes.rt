//! The GiST classes.

ghost use Rattle.gx_value.specs.declared.classes.Class.TheVariants.{RangeOps, InetOps, GistLtree, GistHstore, GistInt, GistIntbig};
ghost use Rattle.gx_value.specs.Values.{scalar, range, inet, path, hstore, int_array};
ghost use Rattle.gx_candidates.specs.Laws.{scalar_class};

use crate::KeyClass;
use gx_bytes::NoMemory;
use gx_candidates::{
    inet_query, map_query, path_query, questions_are_valid, range_query, scalar_query, set_query,
};
use gx_class_inet::{InetClass, InetQuery};
use gx_class_intset::IntClass;
use gx_class_ltree::{LtreeClass, LtreeQuery};
use gx_class_range::{RangeClass, RangeQuery};
use gx_class_scalar::{ScalarClass, ScalarQuery};
use gx_class_sets::{HstoreClass, HstoreQuery, IntQuery, IntbigClass};
use gx_hstore::Hstore;
use gx_inet::Inet;
use gx_intarr::IntArray;
use gx_ltree::Path;
use gx_opr::Operand;
use gx_range::Range;
use gx_scalar::Scalar;
use gx_value::{Operator, Value};
use std::alloc::Global;

impl KeyClass for ScalarClass {
    ghost named = { λ c. scalar_class c.kind };

    ghost parameter = { λ _. 0 };

    ghost datum = { λ v. scalar v };

    fn value_in<'a>(&self, value: &'a Value) -> Option<&'a Scalar> {
        match value {
            Value::Scalar(found) => Some(found),
            _ => None,
        }
    }

    fn query_for(
        &self,
        alloc: Global,
        op: Operator,
        operand: &Operand,
    ) -> Result<Option<ScalarQuery>, NoMemory> {
        questions_are_valid();
        scalar_query(alloc, op, operand)
    }
}

impl KeyClass for RangeClass {
    ghost named = { λ _. RangeOps };

    ghost parameter = { λ _. 0 };

    ghost datum = { λ v. range v };

    fn value_in<'a>(&self, value: &'a Value) -> Option<&'a Range> {
        match value {
            Value::Range(found) => Some(found),
            _ => None,
        }
    }

    fn query_for(
        &self,
        _alloc: Global,
        op: Operator,
        operand: &Operand,
    ) -> Result<Option<RangeQuery>, NoMemory> {
        questions_are_valid();
        Ok(range_query(op, operand))
    }
}

impl KeyClass for InetClass {
    ghost named = { λ _. InetOps };

    ghost parameter = { λ _. 0 };

    ghost datum = { λ v. inet v };

    fn value_in<'a>(&self, value: &'a Value) -> Option<&'a Inet> {
        match value {
            Value::Inet(found) => Some(found),
            _ => None,
        }
    }

    fn query_for(
        &self,
        _alloc: Global,
        op: Operator,
        operand: &Operand,
    ) -> Result<Option<InetQuery>, NoMemory> {
        questions_are_valid();
        Ok(inet_query(op, operand))
    }
}

impl<const N: usize> KeyClass for LtreeClass<N> {
    ghost named = { λ _. GistLtree };

    ghost parameter = { λ _. N };

    ghost datum = { λ v. path v };

    fn value_in<'a>(&self, value: &'a Value) -> Option<&'a Path> {
        match value {
            Value::Path(found) => Some(found),
            _ => None,
        }
    }

    fn query_for(
        &self,
        alloc: Global,
        op: Operator,
        operand: &Operand,
    ) -> Result<Option<LtreeQuery>, NoMemory> {
        questions_are_valid();
        path_query(alloc, op, operand)
    }
}

impl<const N: usize> KeyClass for HstoreClass<N> {
    ghost named = { λ _. GistHstore };

    ghost parameter = { λ _. N };

    ghost datum = { λ v. hstore v };

    fn value_in<'a>(&self, value: &'a Value) -> Option<&'a Hstore> {
        match value {
            Value::Hstore(found) => Some(found),
            _ => None,
        }
    }

    fn query_for(
        &self,
        alloc: Global,
        op: Operator,
        operand: &Operand,
    ) -> Result<Option<HstoreQuery>, NoMemory> {
        questions_are_valid();
        map_query(alloc, op, operand)
    }
}

impl KeyClass for IntClass {
    ghost named = { λ _. GistInt };

    ghost parameter = { λ c. c.numranges };

    ghost datum = { λ v. int_array v };

    fn value_in<'a>(&self, value: &'a Value) -> Option<&'a IntArray> {
        match value {
            Value::IntArray(found) => Some(found),
            _ => None,
        }
    }

    fn query_for(
        &self,
        alloc: Global,
        op: Operator,
        operand: &Operand,
    ) -> Result<Option<IntQuery>, NoMemory> {
        questions_are_valid();
        set_query(alloc, op, operand)
    }
}

impl<const N: usize> KeyClass for IntbigClass<N> {
    ghost named = { λ _. GistIntbig };

    ghost parameter = { λ _. N };

    ghost datum = { λ v. int_array v };

    fn value_in<'a>(&self, value: &'a Value) -> Option<&'a IntArray> {
        match value {
            Value::IntArray(found) => Some(found),
            _ => None,
        }
    }

    fn query_for(
        &self,
        alloc: Global,
        op: Operator,
        operand: &Operand,
    ) -> Result<Option<IntQuery>, NoMemory> {
        questions_are_valid();
        set_query(alloc, op, operand)
    }
}
