//! The productions of declarators that have nodes (C11 6.7.6), by their numbers.
ghost use Rattle.std.specs.Prelude.{◌≡◌};
ghost use Rattle.c11_parsing.specs.C11.{declarator_child, parameters_child, is_parameter, earlier_child, last_child};
ghost use Rattle.sc_tree.specs.Walks.{child_by};

const FUNCTION_HEADER: usize = 9;

const PARAMETERS_WITH_ELLIPSIS: usize = 64;

const PARAMETERS_WITH_COMMA: usize = 66;

const NAMED_PARAMETER: usize = 67;

const IDENTIFIERS_WITH_COMMA: usize = 71;

const ENUMERATOR_WITH_VALUE: usize = 155;

const POINTER_DECLARATOR: usize = 158;

const PARENTHESIZED_DECLARATOR: usize = 160;

const ARRAY_DECLARATOR: usize = 161;

const FUNCTION_DECLARATOR: usize = 162;

const IDENTIFIERS_DECLARATOR: usize = 163;

const PARENTHESIZED_PARAMETERS: usize = 186;

const TYPEDEF_NAME: usize = 287;

const VARIABLE_NAME: usize = 288;

/// By which children a walk goes on.
#[derive(Clone, Copy)]
pub(crate) enum Route {
    /// to the declared name
    Declarator,
    /// from a list of parameters to the list before its last one
    EarlierParameters,
    /// by none: the walk ends behind choices
    Choices,
}

/// The child to which a walk goes on.
pub(crate) fn child(route: Route, production: usize) -> Option<usize>
    ensures { result ≡ child_by route production }
{
    match route {
        Route::Declarator => declarator_child(production),
        Route::EarlierParameters => earlier_child(production),
        Route::Choices => None,
    }
}

/// The child in which the declared name is found.
fn declarator_child(production: usize) -> Option<usize>
    ensures { result ≡ declarator_child production }
{
    match production {
        FUNCTION_HEADER | NAMED_PARAMETER | POINTER_DECLARATOR | PARENTHESIZED_DECLARATOR => Some(
            1,
        ),
        ENUMERATOR_WITH_VALUE
        | ARRAY_DECLARATOR
        | FUNCTION_DECLARATOR
        | IDENTIFIERS_DECLARATOR
        | TYPEDEF_NAME
        | VARIABLE_NAME => Some(0),
        _ => None,
    }
}

/// The child in which the parameters stand, where the node declares a function.
pub(crate) fn parameters_child(production: usize) -> Option<usize>
    ensures { result ≡ parameters_child production }
{
    match production {
        FUNCTION_DECLARATOR => Some(1),
        IDENTIFIERS_DECLARATOR => Some(2),
        _ => None,
    }
}

/// Whether the node is a parameter with a name.
pub(crate) fn is_parameter(production: usize) -> bool
    ensures { result ≡ is_parameter production }
{
    matches!(production, NAMED_PARAMETER | VARIABLE_NAME)
}

/// The child in which the parameters before the last one stand.
fn earlier_child(production: usize) -> Option<usize>
    ensures { result ≡ earlier_child production }
{
    match production {
        PARENTHESIZED_PARAMETERS => Some(1),
        PARAMETERS_WITH_ELLIPSIS | PARAMETERS_WITH_COMMA | IDENTIFIERS_WITH_COMMA => Some(0),
        _ => None,
    }
}

/// The child in which the last parameter stands, where an earlier one stands before it.
pub(crate) fn last_child(production: usize) -> Option<usize>
    ensures { result ≡ last_child production }
{
    match production {
        PARAMETERS_WITH_COMMA | IDENTIFIERS_WITH_COMMA => Some(2),
        _ => None,
    }
}
