//! The tables that the plans are of.

use fixtures::Tables;

/// `t` and `u`, which have rows, and `emp` and `dept`, which have none; `dept` has no index.
const SCHEMA: &str = r#"{"tables":[
    {"name":"t","columns":[{"name":"a","kind":"INT","not_null":true},{"name":"b","kind":"INT","not_null":false}],"unique":[],"indexes":[["b"],["b","a"]]},
    {"name":"u","columns":[{"name":"c","kind":"INT","not_null":true},{"name":"d","kind":"TEXT","not_null":false}],"unique":[],"indexes":[["c"],["d"]]},
    {"name":"emp","columns":[{"name":"id","kind":"INT","not_null":true},{"name":"dept","kind":"INT","not_null":false},{"name":"pay","kind":"INT","not_null":false},{"name":"badge","kind":"INT","not_null":false}],"unique":[],"indexes":[["pay"]]},
    {"name":"dept","columns":[{"name":"id","kind":"INT","not_null":true},{"name":"boss","kind":"INT","not_null":false}],"unique":[],"indexes":[]}]}"#;

const T: &str = "a,b\n1,20\n2,\\N\n3,10\n4,\\N\n5,20\n";

const U: &str = "c,d\n3,x\n1,\\N\n3,y\n";

pub const TABLES: Tables<'static> = Tables {
    schema: SCHEMA,
    first: T,
    second: U,
};
