use expressions::{holds, item_value, read};
use mapdefs::{Expr, Items, Rule, Text, Texts, Values};
use std::alloc::{AllocError, Global};
use test_tables::{TableFault, check_rows};

// The names and the values of the items. Two names are equal but for the case of ASCII
// letters.
const ITEMS: &str = "a:10;t:y;e:;n:1e3;s:abc;z:-5;A:7;q:x,,y;w: 10;big:1e13;\u{c9}:x";

// Names and values of the items.
fn items(alloc: Global) -> Result<(Items<Text>, Values), AllocError> {
    let mut names = Items::new(alloc);
    let mut values = Texts::new(alloc);
    for item in ITEMS.split(';') {
        let (name, value) = item.split_once(':').unwrap_or((item, ""));
        names.push(Text::from_str(alloc, name)?)?;
        values.push(value)?;
    }
    Ok((names, Values::all_of(alloc, values)?))
}

// Whether an expression is true of the items.
fn is_true(alloc: Global, expr: Expr) -> Result<bool, AllocError> {
    let (names, values) = items(alloc)?;
    let rule = Rule::Logic(expr);
    Ok(holds(&rule, names.as_slice(), &values, ""))
}

// Whether a text is an expression that is true of the items.
fn truth(alloc: Global, text: &str) -> Result<String, AllocError> {
    match read(alloc, text.as_bytes()) {
        Ok(expr) => {
            if is_true(alloc, expr)? {
                String::from_str(alloc, "yes")
            } else {
                String::from_str(alloc, "no")
            }
        }
        Err(_) => String::from_str(alloc, "fault"),
    }
}

const TRUTHS: &str = "\
# numbers
yes ([a]=10)
yes ([a]=10.0)
yes ([a]==1e1)
no ([a]!=10)
yes ([a]!=11)
yes ([a]<11)
no ([a]<10)
yes ([a]<=10)
no ([a]<=9.999999)
yes ([a]>9)
no ([a]>10)
yes ([a]>=10)
no ([a]>=10.000001)
yes ([z]<0)
yes (-5=[z])
yes ([n]=1000)
yes (9<10)
yes ([a]>[z])
yes (\"1.0\"=1)
yes (\"[a]\"=10.0)
# numbers that can't be read
no ([t]=1)
no ([t]!=1)
no ([e]=0)
no ([e]!=0)
no ([e]<1)
no ([t]=[t])
no ([none]=0)
no ([none]!=0)
no ([w]=10)
no ([big]>1)
no ([t]=\"y\")
# texts
yes (\"[a]\"=\"10\")
no (\"[a]\"=\"10.0\")
yes (\"[t]\"=\"y\")
no (\"[t]\"=\"Y\")
yes (\"[t]\"!='Y')
yes (\"10\"<\"9\")
no (\"10\">\"9\")
yes (\"[s]\">=\"ab\")
yes (\"ab\"<=\"[s]\")
yes (\"B\"<\"a\")
yes (\"[e]\"=\"\")
yes (\"[none]\"=\"\")
no (\"[none]\"!=\"\")
yes (\"[S]\"=\"abc\")
yes (\"[A]\"=\"10\")
yes (\"[\u{c9}]\"=\"x\")
no (\"[\u{e9}]\"=\"x\")
# without regard to case
yes (\"[t]\"=*\"Y\")
yes (\"ABC\"=*[s])
no (\"[t]\"=*\"z\")
yes ([a]=*10)
no ([a]=*10.0)
yes (\"\"=*[e])
# one of some parts
yes ([t]IN\"x,y,z\")
no ([t]IN\"x,y z\")
no ([t]IN\"x, y\")
yes ([t]IN\"y\")
yes (\"\"IN\"a,,b\")
yes (\"\"IN\"\")
no (\"\"IN\"a,b\")
yes ([e]IN\"x,\")
no (\"x,y\"IN\"x,y\")
yes (\"x\"IN[q])
yes (\"\"IN[q])
yes (10IN\"9,10\")
no (10.0IN\"9,10\")
no (\"Y\"IN\"x,y\")
# together
yes ([a]=10 AND [t]=*\"y\")
no ([a]=10 AND [a]=1)
yes ([a]=1 OR [a]=10)
no ([a]=1 OR [a]=2)
yes ([a]=10 OR [a]=1 AND [a]=2)
no (NOT [a]=1 AND [a]=2)
yes (!([a]=1 OR [a]=2))
no (NOT [a]=10)
yes ([none]=1 OR [a]=10)";

#[test]
fn expressions_are_true_of_worked_items(rt: HostRuntime) -> Result<(), TableFault> {
    check_rows(rt.alloc(), TRUTHS, ' ', 77, truth)
}

// Whether one of `a` and `b` holds of a value.
fn one_of_two(alloc: Global, value: &str) -> Result<bool, AllocError> {
    let mut texts = Items::new(alloc);
    texts.push(Text::from_str(alloc, "a")?)?;
    texts.push(Text::from_str(alloc, "b")?)?;
    Ok(holds(&Rule::OneOf(texts), &[], &Values::none(), value))
}

// Whether `b` itself holds of a value.
fn equals(alloc: Global, value: &str) -> Result<bool, AllocError> {
    let rule = Rule::Equals(Text::from_str(alloc, "b")?);
    Ok(holds(&rule, &[], &Values::none(), value))
}

// Whether an item has that value.
fn has_value(alloc: Global, name: &str, value: &str) -> Result<bool, AllocError> {
    let (names, values) = items(alloc)?;
    Ok(item_value(names.as_slice(), &values, name) == value)
}

// Whether rules hold: all of `c`, one of two of `b` and of `c`, one of `b` and of `B`; and whether `S` is
// `abc` and an item without a name here is empty.
const RULES: &str = "[true, true, false, true, false, true, true]|";

fn rules(alloc: Global, _row: &str) -> Result<String, AllocError> {
    let truths = [
        holds(&Rule::Always, &[], &Values::none(), "c"),
        one_of_two(alloc, "b")?,
        one_of_two(alloc, "c")?,
        equals(alloc, "b")?,
        equals(alloc, "B")?,
        has_value(alloc, "S", "abc")?,
        has_value(alloc, "x", "")?,
    ];
    format!(in alloc; "{truths:?}")
}

#[test]
fn rules_look_at_the_class_item(rt: HostRuntime) -> Result<(), TableFault> {
    check_rows(rt.alloc(), RULES, '|', 1, rules)
}
