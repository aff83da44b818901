// Texts that nest deeply, have many items, or are long: each has its first fault, at its exact place.
use super::scripts::expect_table;

const METHODS_AND_ITEMS: &str = r#"
{"methods":[[]|255*,[]|]} => ok 256
{"methods":[7|256*,[]|]} => TooManyMethods at -
{"methods":[["vm"],["vm"|65534*,"vm"|]]} => ok 2
{"methods":[["vm"],["vm"|65535*,"vm"|]]} => TooManyItems at 1.65535
"#;

const NESTED_LOOPS: &str = r#"
{"methods":[[|8*{"loop":1,"body":[|"vm"|8*]}|]]} => ok 1
{"methods":[[|8*{"loop":1,"body":[|{"call":1}|8*]}|]]} => BadCall at 0.0.0.0.0.0.0.0.0.0
{"methods":[[|8*{"loop":1,"body":[|{"loop":0,"body":[]}|8*]}|]]} => BadLoop at 0.0.0.0.0.0.0.0.0.0
{"methods":[[|8*{"loop":1,"body":[|{"loop":2,"body":[{"call":1}]}|8*]}|]]} => TooDeep at 0.0.0.0.0.0.0.0.0.0
{"methods":[[|9*{"loop":1,"body":[|9*]}|]]} => TooDeep at 0.0.0.0.0.0.0.0.0.0
{"methods":[[|62*{"loop":1,"body":[|62*]}|]]} => TooDeep at 0.0.0.0.0.0.0.0.0.0
"#;

// 127 levels of JSON are read; three of them are around the loops, and each loop has two.
const DEEPER: &str = r#"
{"methods":[[|62*{"loop":1,"body":[|[]|62*]}|]]} => NotJson at -
{"methods":[[|63*{"loop":1,"body":[|63*]}|]]} => NotJson at -
{"methods":[[|50000*{"loop":1,"body":[|50000*]}|]]} => NotJson at -
200*[|200*] => NotJson at -
500000*[|500000*] => NotJson at -
"#;

#[test]
fn methods_items_and_levels_have_limits(rt: HostRuntime) {
    for table in [METHODS_AND_ITEMS, NESTED_LOOPS, DEEPER] {
        expect_table(&rt, rt.alloc(), table);
    }
}

const PAST_THE_MOST_ITEMS: &str = r#"
{"methods":[[{"loop":1,"body":[|65534*"vm",|{"call":1}]}]]} => BadCall at 0.0.65534
{"methods":[[{"loop":1,"body":[|65535*"vm",|{"call":1}]}]]} => TooManyItems at 0.0.65535
{"methods":[[{"loop":1,"body":[|65535*"vm",|"tock"]}]]} => BadShape at 0.0.65535
{"methods":[[|65535*"vm",|{"loop":0,"body":[]}]]} => BadLoop at 0.65535
{"methods":[[|65536*"vm",|{"loop":0,"body":[]}]]} => TooManyItems at 0.65536
{"methods":[[|65536*"vm",|{"loop":2,"body":[{"call":1}]},"tock"]]} => TooManyItems at 0.65536
"#;

#[test]
fn the_item_past_the_most_is_told_before_its_body(rt: HostRuntime) {
    expect_table(&rt, rt.alloc(), PAST_THE_MOST_ITEMS);
}

// The longest text has 1,048,576 bytes. The script before the spaces has 64.
const LONG: &str = r#"
{"methods":[[{"loop":3,"body":[{"call":1},"native"]}],["tick"]]}|1048512*  => ok 2
{"methods":[[{"loop":3,"body":[{"call":1},"native"]}],["tick"]]}|1048513*  => TooLong at -
1048576*  => NotJson at -
1048577*  => TooLong at -
1048576*[ => NotJson at -
1048577*[ => TooLong at -
90000*{"methods": => NotJson at -
"#;

#[test]
fn long_texts_are_read_up_to_the_longest(rt: HostRuntime) {
    expect_table(&rt, rt.alloc(), LONG);
}

const MANY_VALUES: &str = r#"
{"methods":[[{"call":1|1000000*0|}]]} => NotJson at -
{"methods":[["|1000000*a|"]]} => BadShape at 0.0
{"methods":[|300000*[],|7]} => TooManyMethods at -
{|50000*"methods":7,|"methods":[[]]} => ok 1
"#;

#[test]
fn many_values_have_one_fault(rt: HostRuntime) {
    expect_table(&rt, rt.alloc(), MANY_VALUES);
}
