//! The GIN classes.

ghost use Rattle.gx_value.specs.declared.classes.Class.TheVariants.{ArrayOps, GinInt, GinHstore, JsonbOps, JsonbPathOps};
ghost use Rattle.gx_value.specs.Values.{hstore, int_array, json};
ghost use Rattle.gx_json.specs.Tree.{data_of};
ghost use Rattle.gx_index.specs.Counted.{arrays_counted, numbers_counted, maps_counted, documents_counted, paths_counted};

use crate::ItemClass;
use gx_bytes::NoMemory;
use gx_candidates::{
    array_query, gin_map_query, json_path_query, json_query, numbers_query, questions_are_valid,
};
use gx_gin_arrays::{ArrayClass, GinIntClass, IntQuery};
use gx_gin_documents::{JsonQuery, JsonbClass, JsonbPathClass};
use gx_gin_maps::{GinHstoreClass, HstoreQuery};
use gx_hstore::Hstore;
use gx_intarr::IntArray;
use gx_json::Json;
use gx_opr::Operand;
use gx_value::{Operator, Value};
use std::alloc::Global;

impl ItemClass for ArrayClass {
    ghost named = { λ _. ArrayOps };

    ghost datum = { λ v. int_array v };

    fn value_in<'a>(&self, value: &'a Value) -> Option<&'a IntArray> {
        match value {
            Value::IntArray(found) => Some(found),
            _ => None,
        }
    }

    fn query_for(
        &self,
        alloc: Global,
        op: Operator,
        operand: &Operand,
    ) -> Result<Option<IntQuery>, NoMemory> {
        questions_are_valid();
        array_query(alloc, op, operand)
    }

    ghost counted = { λ _ v. arrays_counted v };
}

impl ItemClass for GinIntClass {
    ghost named = { λ _. GinInt };

    ghost datum = { λ v. int_array v };

    fn value_in<'a>(&self, value: &'a Value) -> Option<&'a IntArray> {
        match value {
            Value::IntArray(found) => Some(found),
            _ => None,
        }
    }

    fn query_for(
        &self,
        alloc: Global,
        op: Operator,
        operand: &Operand,
    ) -> Result<Option<IntQuery>, NoMemory> {
        questions_are_valid();
        numbers_query(alloc, op, operand)
    }

    ghost counted = { λ _ v. numbers_counted v };
}

impl ItemClass for GinHstoreClass {
    ghost named = { λ _. GinHstore };

    ghost datum = { λ v. hstore v };

    fn value_in<'a>(&self, value: &'a Value) -> Option<&'a Hstore> {
        match value {
            Value::Hstore(found) => Some(found),
            _ => None,
        }
    }

    fn query_for(
        &self,
        alloc: Global,
        op: Operator,
        operand: &Operand,
    ) -> Result<Option<HstoreQuery>, NoMemory> {
        questions_are_valid();
        gin_map_query(alloc, op, operand)
    }

    ghost counted = { λ _ v. maps_counted v };
}

impl ItemClass for JsonbClass {
    ghost named = { λ _. JsonbOps };

    ghost datum = { λ v. json (data_of v) };

    fn value_in<'a>(&self, value: &'a Value) -> Option<&'a Json> {
        match value {
            Value::Json(found) => Some(found),
            _ => None,
        }
    }

    fn query_for(
        &self,
        alloc: Global,
        op: Operator,
        operand: &Operand,
    ) -> Result<Option<JsonQuery>, NoMemory> {
        questions_are_valid();
        json_query(alloc, op, operand)
    }

    ghost counted = { λ _ v. documents_counted (data_of v) };
}

impl ItemClass for JsonbPathClass {
    ghost named = { λ _. JsonbPathOps };

    ghost datum = { λ v. json (data_of v) };

    fn value_in<'a>(&self, value: &'a Value) -> Option<&'a Json> {
        match value {
            Value::Json(found) => Some(found),
            _ => None,
        }
    }

    fn query_for(
        &self,
        alloc: Global,
        op: Operator,
        operand: &Operand,
    ) -> Result<Option<JsonQuery>, NoMemory> {
        questions_are_valid();
        json_path_query(alloc, op, operand)
    }

    ghost counted = { λ _ v. paths_counted (data_of v) };
}
