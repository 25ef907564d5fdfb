// What is declared around the expressions:
//
//     enum { SEVEN = 7 };
//     struct s { int x; int t[3]; const int y; };
//     int i; unsigned u; long l; unsigned long ul; char c; unsigned char uc; _Bool b; short h; const int k;
//     int *p; const int *q; int **pp; char *cp; int a[4]; int *ap[2]; struct s v; struct s *w;
//     int f(int, int *); void n(void);
//
// and the locals `int x, y, z; char *s, *t;`.

use c_kinds::StructLayout;
use c_scopes::{Field, File, Local, Object, Scope, Signature, Structure};
use std::alloc::Global;
use typed_prog::{Base, CoreType};
use wp_base::{CellKind, Kind, List, NoMemory, Str};

fn stars(alloc: Global, given: &[bool]) -> Result<List<bool>, NoMemory> {
    Ok(List::from_vec(Vec::from_slice(alloc, given)?))
}

fn type_of(
    alloc: Global,
    base: Base,
    given: &[bool],
    count: Option<u32>,
) -> Result<CoreType, NoMemory> {
    Ok(CoreType {
        base,
        stars: stars(alloc, given)?,
        count,
    })
}

fn name_of(alloc: Global, name: &str) -> Result<Str, NoMemory> {
    Str::from_bytes(alloc, name.as_bytes())
}

fn object_of(alloc: Global, name: &str, ty: CoreType, is_const: bool) -> Result<Object, NoMemory> {
    Ok(Object {
        name: name_of(alloc, name)?,
        ty,
        is_const,
        line: 1,
    })
}

fn declare(
    alloc: Global,
    file: &mut File,
    name: &str,
    ty: CoreType,
    is_const: bool,
) -> Result<(), NoMemory> {
    let object = object_of(alloc, name, ty, is_const)?;
    let _is_new = file.declare_object(alloc, object)?;
    Ok(())
}

fn integers(alloc: Global, file: &mut File) -> Result<(), NoMemory> {
    let of = [
        ("i", Kind::Int),
        ("u", Kind::UInt),
        ("l", Kind::Long),
        ("ul", Kind::ULong),
        ("c", Kind::Char),
        ("uc", Kind::UChar),
        ("b", Kind::Bool),
        ("h", Kind::Short),
    ];
    for (name, kind) in &of {
        declare(alloc, file, name, CoreType::of_kind(alloc, *kind), false)?;
    }
    declare(alloc, file, "k", CoreType::of_kind(alloc, Kind::Int), true)
}

fn pointers(alloc: Global, file: &mut File) -> Result<(), NoMemory> {
    let int = Base::Of(Kind::Int);
    let p = type_of(alloc, int, &[false], None)?;
    declare(alloc, file, "p", p, false)?;
    let q = type_of(alloc, int, &[true], None)?;
    declare(alloc, file, "q", q, false)?;
    let pp = type_of(alloc, int, &[false, false], None)?;
    declare(alloc, file, "pp", pp, false)?;
    let cp = type_of(alloc, Base::Of(Kind::Char), &[false], None)?;
    declare(alloc, file, "cp", cp, false)?;
    let a = type_of(alloc, int, &[], Some(4))?;
    declare(alloc, file, "a", a, false)?;
    let ap = type_of(alloc, int, &[false], Some(2))?;
    declare(alloc, file, "ap", ap, false)
}

fn field(alloc: Global, name: &str, count: Option<u32>, is_const: bool) -> Result<Field, NoMemory> {
    Ok(Field {
        name: name_of(alloc, name)?,
        ty: type_of(alloc, Base::Of(Kind::Int), &[], count)?,
        is_const,
    })
}

fn fields(alloc: Global) -> Result<List<Field>, NoMemory> {
    let mut fields = List::new(alloc);
    fields.push(field(alloc, "x", None, false)?)?;
    fields.push(field(alloc, "t", Some(3), false)?)?;
    fields.push(field(alloc, "y", None, true)?)?;
    Ok(fields)
}

fn layout(alloc: Global) -> Result<StructLayout, NoMemory> {
    let int = CellKind::Of(Kind::Int);
    let offsets = Vec::from_slice(alloc, &[0, 1, 4])?;
    let cells = Vec::from_slice(alloc, &[int, int, int, int, int])?;
    Ok(StructLayout {
        fields: List::from_vec(offsets),
        cells: List::from_vec(cells),
    })
}

fn structs(alloc: Global, file: &mut File) -> Result<(), NoMemory> {
    let name = name_of(alloc, "s")?;
    let _is_new = file.declare_struct(alloc, &name)?;
    let fields = fields(alloc)?;
    let layout = layout(alloc)?;
    file.complete_struct(Structure {
        name,
        fields,
        layout,
    })?;
    let v = type_of(alloc, Base::Struct(0), &[], None)?;
    declare(alloc, file, "v", v, false)?;
    let w = type_of(alloc, Base::Struct(0), &[false], None)?;
    declare(alloc, file, "w", w, false)
}

fn functions(alloc: Global, file: &mut File) -> Result<(), NoMemory> {
    let mut params = List::new(alloc);
    params.push(CoreType::of_kind(alloc, Kind::Int))?;
    params.push(type_of(alloc, Base::Of(Kind::Int), &[false], None)?)?;
    let f = Signature {
        name: name_of(alloc, "f")?,
        result: CoreType::of_kind(alloc, Kind::Int),
        params,
        line: 1,
    };
    let _is_new = file.declare_function(alloc, f)?;
    let n = Signature {
        name: name_of(alloc, "n")?,
        result: CoreType::void(alloc),
        params: List::new(alloc),
        line: 1,
    };
    let _is_new = file.declare_function(alloc, n)?;
    let seven = name_of(alloc, "SEVEN")?;
    let _is_new = file.declare_enumerator(alloc, &seven, 7)?;
    Ok(())
}

fn locals(alloc: Global) -> Result<Local, NoMemory> {
    let mut local = Local::new(alloc);
    local.enter(alloc)?;
    for name in &["x", "y", "z"] {
        let ty = CoreType::of_kind(alloc, Kind::Int);
        let object = object_of(alloc, name, ty, false)?;
        let _is_new = local.declare(alloc, object)?;
    }
    for name in &["s", "t"] {
        let ty = type_of(alloc, Base::Of(Kind::Char), &[false], None)?;
        let object = object_of(alloc, name, ty, false)?;
        let _is_new = local.declare(alloc, object)?;
    }
    Ok(local)
}

/// The scope of these declarations.
pub fn scope_of(alloc: Global) -> Result<Scope, NoMemory> {
    let mut file = File::new(alloc);
    integers(alloc, &mut file)?;
    pointers(alloc, &mut file)?;
    structs(alloc, &mut file)?;
    functions(alloc, &mut file)?;
    let local = locals(alloc)?;
    Ok(Scope { file, local })
}
