use std::test::Fail;
use su_base::Kind;
use su_cases::schema_of;
use su_schema::Schema;

const TEXT: &str = "\
attribute A int; attribute B int; attribute C text;
relation A (A int, B int, C text, D int);
object O (C, A) from A (C, B); object P (A, B) from A (A, B);
fd A, C -> A; maximal (P, O); maximal (P);
";

fn finds_its_names(schema: &Schema) -> bool {
    schema.find_attribute("C") == Some(2)
        && schema.find_attribute("O").is_none()
        && schema.find_relation("A") == Some(0)
        && schema.fds().len() == 1
        && schema.declared().len() == 2
}

fn reads_an_attribute(schema: &Schema) -> bool {
    schema.attributes() > 2
        && schema.attribute_name(2) == "C"
        && schema.attribute_kind(2) == Kind::Text
}

fn reads_a_relation(schema: &Schema) -> bool {
    schema.relations() > 0
        && schema.relation_name(0) == "A"
        && schema.columns(0).len() == 4
        && schema.columns_at(1).is_empty()
        && schema.column_name(0, 3) == "D"
        && schema.find_column(0, "D") == Some(3)
}

fn reads_an_object(schema: &Schema) -> bool {
    schema.objects() > 0
        && schema.object_name(0) == "O"
        && schema.object_relation(0) == 0
        && schema.object_attributes(0).contains(2)
        && schema.object_column(0, 0) == Some(1)
        && schema.object_column(0, 1).is_none()
}

#[test]
fn a_copy_reads_as_its_schema(rt: HostRuntime) -> Result<(), Fail> {
    let Some(schema) = schema_of(rt.alloc(), TEXT) else {
        return Err(Fail::from("no schema"));
    };
    let copy = schema.copy()?;
    assert!(rt; finds_its_names(&copy));
    assert!(rt; reads_an_attribute(&copy));
    assert!(rt; reads_a_relation(&copy));
    assert!(rt; reads_an_object(&copy));
    Ok(())
}
