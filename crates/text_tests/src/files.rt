// Files that are read, and one that is refused.
ghost use Rattle.std.specs.Prelude.{◌≤◌, length};

use process_text::{File, FileRefusal, Refused, read_file};
use std::alloc::Global;
use std::test::Fail;
use wsm_schema::Schema;

// A type with each kind of line.
const TYPE: &[u8] = b"\
adept 1
type t
element e int
and s j
branch 0
act A
branch 1
act B
done
xor x y
branch 0
branch 1
act D
done
loop l m
act C role 7
done
sync A B
write A e
read C e optional
end
";

const SCRIPT: &[u8] = b"\
adept 1
type t
act A
end
actor ann roles 7
case c t
phase
ann create c
ann end c A choice 2 e=7 f=\"a b\"
ann change c
insert B after A
end
phase
ann migrate t
";

const ONE_BRANCH: &[u8] = b"\
adept 1
type t
xor s j
branch 7
done
end
";

// The proof of a test need not compute the file that literal bytes stand for.
fn file_of(alloc: Global, bytes: &[u8]) -> Option<File>
    requires { length bytes.now ≤ 1000 }
{
    read_file(alloc, bytes).ok()
}

fn refusal_of(alloc: Global, bytes: &[u8]) -> Option<Refused>
    requires { length bytes.now ≤ 1000 }
{
    match read_file(alloc, bytes) {
        Err(FileRefusal::Refused(refused)) => Some(refused),
        _ => None,
    }
}

// No test holds a file, which makes its proof dear: what looks at one has it by reference.
fn schema_is_read(schema: &Schema) -> bool {
    schema.body.len() == 3
        && *schema.syncs.as_slice() == *[(4, 5)].as_slice()
        && *schema.reads.as_slice() == *[(11, 0, false)].as_slice()
        && *schema.writes.as_slice() == *[(4, 0)].as_slice()
        && *schema.roles.as_slice() == *[(11, 7)].as_slice()
}

fn type_is_read(file: &File) -> bool {
    match file.types.get(0) {
        Some(kind) => file.nodes.len() == 12 && schema_is_read(&kind.schema),
        None => false,
    }
}

fn reads_type(alloc: Global, bytes: &[u8]) -> bool
    requires { length bytes.now ≤ 1000 }
{
    match file_of(alloc, bytes) {
        Some(file) => type_is_read(&file),
        None => false,
    }
}

#[test]
fn reads_types_and_their_schemas(rt: HostRuntime) -> Result<(), Fail> {
    assert!(rt; reads_type(rt.alloc(), TYPE));
    Ok(())
}

// How many phases and elements there are, how many lines the first phase has, and the order of its third line.
fn counted(file: &File) -> Option<[usize; 4]> {
    let lines = file.phases.get(0)?;
    let order = lines.get(2)?.order as usize;
    Some([file.phases.len(), file.elements.len(), lines.len(), order])
}

fn counts(alloc: Global, bytes: &[u8]) -> Option<[usize; 4]>
    requires { length bytes.now ≤ 1000 }
{
    counted(&file_of(alloc, bytes)?)
}

#[test]
fn reads_script_lines(rt: HostRuntime) -> Result<(), Fail> {
    assert!(rt; counts(rt.alloc(), SCRIPT) == Some([2, 2, 3, 3]));
    Ok(())
}

#[test]
fn tells_the_first_refusal(rt: HostRuntime) -> Result<(), Fail> {
    let refused = refusal_of(rt.alloc(), ONE_BRANCH).ok_or("a refusal")?;
    assert_eq!(rt; refused.line, 6);
    assert_eq!(rt;
        refused.text.as_slice(),
        b"unsound few-branches s".as_slice()
    );
    Ok(())
}
