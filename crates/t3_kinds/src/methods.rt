//! Which methods there are.
ghost use Rattle.std.specs.Prelude.{◌≡◌};
ghost use Rattle.t3_kinds.specs.Methods.{method_at, is_listed, row_of, takes};

/// The metaclasses that have methods.
#[derive(Clone, Copy, Debug, PartialEq, Eq)]
pub enum Methods {
    /// Those of all objects.
    Root,
    Tads,
    /// Those of strings, constant ones too.
    Text,
    /// Those of lists, constant ones too.
    List,
    Vector,
    Table,
}

/// A method of a metaclass.
#[derive(Clone, Copy, Debug, PartialEq, Eq)]
pub enum Method {
    Root(RootMethod),
    Tads(TadsMethod),
    Text(TextMethod),
    List(ListMethod),
    Vector(VectorMethod),
    Table(TableMethod),
}

#[derive(Clone, Copy, Debug, PartialEq, Eq)]
pub enum RootMethod {
    OfKind,
    GetSuperclassList,
    PropDefined,
    IsClass,
    IsTransient,
}

/// Those that create objects by a constructor aren't here: the machine carries them out.
#[derive(Clone, Copy, Debug, PartialEq, Eq)]
pub enum TadsMethod {
    CreateClone,
}

#[derive(Clone, Copy, Debug, PartialEq, Eq)]
pub enum TextMethod {
    Length,
    Substr,
    StartsWith,
    EndsWith,
}

#[derive(Clone, Copy, Debug, PartialEq, Eq)]
pub enum ListMethod {
    Length,
    Sublist,
    IndexOf,
    Append,
}

#[derive(Clone, Copy, Debug, PartialEq, Eq)]
pub enum VectorMethod {
    ToList,
    Length,
    IndexOf,
    SetLength,
    RemoveElementAt,
    Append,
}

#[derive(Clone, Copy, Debug, PartialEq, Eq)]
pub enum TableMethod {
    IsKeyPresent,
    RemoveElement,
    GetEntryCount,
    KeysToList,
    ValsToList,
    GetDefaultValue,
    SetDefaultValue,
}

/// The method of an index of a metaclass, if there is one.
pub fn method_at(kind: Methods, index: u16) -> Option<Method>
    ensures { result ≡ method_at kind index }
{
    match kind {
        Methods::Root => root_method_at(index),
        Methods::Tads => tads_method_at(index),
        Methods::Text => text_method_at(index),
        Methods::List => list_method_at(index),
        Methods::Vector => vector_method_at(index),
        Methods::Table => table_method_at(index),
    }
}

/// Whether there is a method of that index.
pub fn is_listed(kind: Methods, index: u16) -> bool
    ensures { result ≡ is_listed kind index }
{
    method_at(kind, index).is_some()
}

fn root_method_at(index: u16) -> Option<Method>
    ensures { result ≡ method_at Methods.Root index }
{
    match index {
        0 => Some(Method::Root(RootMethod::OfKind)),
        1 => Some(Method::Root(RootMethod::GetSuperclassList)),
        2 => Some(Method::Root(RootMethod::PropDefined)),
        6 => Some(Method::Root(RootMethod::IsClass)),
        8 => Some(Method::Root(RootMethod::IsTransient)),
        _ => None,
    }
}

fn tads_method_at(index: u16) -> Option<Method>
    ensures { result ≡ method_at Methods.Tads index }
{
    match index {
        1 => Some(Method::Tads(TadsMethod::CreateClone)),
        _ => None,
    }
}

fn text_method_at(index: u16) -> Option<Method>
    ensures { result ≡ method_at Methods.Text index }
{
    match index {
        0 => Some(Method::Text(TextMethod::Length)),
        1 => Some(Method::Text(TextMethod::Substr)),
        7 => Some(Method::Text(TextMethod::StartsWith)),
        8 => Some(Method::Text(TextMethod::EndsWith)),
        _ => None,
    }
}

fn list_method_at(index: u16) -> Option<Method>
    ensures { result ≡ method_at Methods.List index }
{
    match index {
        2 => Some(Method::List(ListMethod::Length)),
        3 => Some(Method::List(ListMethod::Sublist)),
        5 => Some(Method::List(ListMethod::IndexOf)),
        18 => Some(Method::List(ListMethod::Append)),
        _ => None,
    }
}

fn vector_method_at(index: u16) -> Option<Method>
    ensures { result ≡ method_at Methods.Vector index }
{
    match index {
        0 => Some(Method::Vector(VectorMethod::ToList)),
        1 => Some(Method::Vector(VectorMethod::Length)),
        10 => Some(Method::Vector(VectorMethod::IndexOf)),
        20 => Some(Method::Vector(VectorMethod::SetLength)),
        22 => Some(Method::Vector(VectorMethod::RemoveElementAt)),
        24 => Some(Method::Vector(VectorMethod::Append)),
        _ => None,
    }
}

fn table_method_at(index: u16) -> Option<Method>
    ensures { result ≡ method_at Methods.Table index }
{
    match index {
        0 => Some(Method::Table(TableMethod::IsKeyPresent)),
        1 => Some(Method::Table(TableMethod::RemoveElement)),
        5 => Some(Method::Table(TableMethod::GetEntryCount)),
        7 => Some(Method::Table(TableMethod::KeysToList)),
        8 => Some(Method::Table(TableMethod::ValsToList)),
        9 => Some(Method::Table(TableMethod::GetDefaultValue)),
        10 => Some(Method::Table(TableMethod::SetDefaultValue)),
        _ => None,
    }
}

/// Whether a method takes so many arguments.
pub(crate) fn takes(method: Method, count: usize) -> bool
    ensures { result ≡ takes (row_of method) count }
{
    match method {
        Method::Root(method) => root_takes(method, count),
        Method::Tads(TadsMethod::CreateClone) => count == 0,
        Method::Text(method) => text_takes(method, count),
        Method::List(method) => list_takes(method, count),
        Method::Vector(method) => vector_takes(method, count),
        Method::Table(method) => table_takes(method, count),
    }
}

fn root_takes(method: RootMethod, count: usize) -> bool
    ensures { result ≡ takes (row_of (Method.Root method)) count }
{
    match method {
        RootMethod::OfKind | RootMethod::PropDefined => count == 1,
        RootMethod::GetSuperclassList | RootMethod::IsClass | RootMethod::IsTransient => count == 0,
    }
}

fn text_takes(method: TextMethod, count: usize) -> bool
    ensures { result ≡ takes (row_of (Method.Text method)) count }
{
    match method {
        TextMethod::Length => count == 0,
        TextMethod::Substr => count == 1 || count == 2,
        TextMethod::StartsWith | TextMethod::EndsWith => count == 1,
    }
}

fn list_takes(method: ListMethod, count: usize) -> bool
    ensures { result ≡ takes (row_of (Method.List method)) count }
{
    match method {
        ListMethod::Length => count == 0,
        ListMethod::Sublist => count == 1 || count == 2,
        ListMethod::IndexOf | ListMethod::Append => count == 1,
    }
}

fn vector_takes(method: VectorMethod, count: usize) -> bool
    ensures { result ≡ takes (row_of (Method.Vector method)) count }
{
    match method {
        VectorMethod::ToList | VectorMethod::Length => count == 0,
        VectorMethod::IndexOf
        | VectorMethod::SetLength
        | VectorMethod::RemoveElementAt
        | VectorMethod::Append => count == 1,
    }
}

fn table_takes(method: TableMethod, count: usize) -> bool
    ensures { result ≡ takes (row_of (Method.Table method)) count }
{
    match method {
        TableMethod::IsKeyPresent | TableMethod::RemoveElement | TableMethod::SetDefaultValue => {
            count == 1
        }
        TableMethod::GetEntryCount
        | TableMethod::KeysToList
        | TableMethod::ValsToList
        | TableMethod::GetDefaultValue => count == 0,
    }
}
