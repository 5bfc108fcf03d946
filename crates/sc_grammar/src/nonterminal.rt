//! The nonterminals of C11, in the order of their numbers.
use lr_tables::Nonterminal;

pub const UNIT: Nonterminal = Nonterminal(0);

pub const TRANSLATION_UNIT: Nonterminal = Nonterminal(1);

pub const EXTERNAL_DECLARATION: Nonterminal = Nonterminal(2);

pub const FUNCTION_DEFINITION: Nonterminal = Nonterminal(3);

pub const FUNCTION_HEADER: Nonterminal = Nonterminal(4);

pub const KR_DECLARATIONS: Nonterminal = Nonterminal(5);

pub const FUNCTION_BODY: Nonterminal = Nonterminal(6);

pub const BLOCK_ITEMS: Nonterminal = Nonterminal(7);

pub const BLOCK_ITEM: Nonterminal = Nonterminal(8);

pub const DECLARATION: Nonterminal = Nonterminal(9);

pub const INIT_DECLARATORS: Nonterminal = Nonterminal(10);

pub const INIT_DECLARATOR: Nonterminal = Nonterminal(11);

pub const TYPEDEF_DECLARATORS: Nonterminal = Nonterminal(12);

pub const TYPEDEF_DECLARATOR: Nonterminal = Nonterminal(13);

pub const STATEMENT: Nonterminal = Nonterminal(14);

pub const LABELED: Nonterminal = Nonterminal(15);

pub const COMPOUND: Nonterminal = Nonterminal(16);

pub const BLOCK_OPEN: Nonterminal = Nonterminal(17);

pub const EXPRESSION_STATEMENT: Nonterminal = Nonterminal(18);

pub const SELECTION: Nonterminal = Nonterminal(19);

pub const IF_OPEN: Nonterminal = Nonterminal(20);

pub const SWITCH_OPEN: Nonterminal = Nonterminal(21);

pub const ITERATION: Nonterminal = Nonterminal(22);

pub const WHILE_OPEN: Nonterminal = Nonterminal(23);

pub const DO_OPEN: Nonterminal = Nonterminal(24);

pub const FOR_OPEN: Nonterminal = Nonterminal(25);

pub const JUMP: Nonterminal = Nonterminal(26);

pub const PARAMETER_TYPES: Nonterminal = Nonterminal(27);

pub const PARAMETERS: Nonterminal = Nonterminal(28);

pub const PARAMETER: Nonterminal = Nonterminal(29);

pub const IDENTIFIERS: Nonterminal = Nonterminal(30);

pub const DECL_SPECS: Nonterminal = Nonterminal(31);

pub const TYPEDEF_SPECS: Nonterminal = Nonterminal(32);

pub const SPEC_PREFIX: Nonterminal = Nonterminal(33);

pub const TYPEDEF_PREFIX: Nonterminal = Nonterminal(34);

pub const SPEC_OTHER: Nonterminal = Nonterminal(35);

pub const STORAGE_CLASS: Nonterminal = Nonterminal(36);

pub const FUNCTION_SPECIFIER: Nonterminal = Nonterminal(37);

pub const TYPE_NAME: Nonterminal = Nonterminal(38);

pub const SPEC_QUALS: Nonterminal = Nonterminal(39);

pub const QUAL_PREFIX: Nonterminal = Nonterminal(40);

pub const QUAL_ITEM: Nonterminal = Nonterminal(41);

pub const ALIGNMENT_SPECIFIER: Nonterminal = Nonterminal(42);

pub const TYPE_QUALIFIERS: Nonterminal = Nonterminal(43);

pub const TYPE_QUALIFIER: Nonterminal = Nonterminal(44);

pub const TYPE_SPEC: Nonterminal = Nonterminal(45);

pub const TYPEDEF_SPEC: Nonterminal = Nonterminal(46);

pub const KEYWORD_TYPE: Nonterminal = Nonterminal(47);

pub const STRUCT_SPEC: Nonterminal = Nonterminal(48);

pub const STRUCT_WORD: Nonterminal = Nonterminal(49);

pub const STRUCT_DECLARATIONS: Nonterminal = Nonterminal(50);

pub const STRUCT_DECLARATION: Nonterminal = Nonterminal(51);

pub const STRUCT_DECLARATORS: Nonterminal = Nonterminal(52);

pub const STRUCT_DECLARATOR: Nonterminal = Nonterminal(53);

pub const STATIC_ASSERT: Nonterminal = Nonterminal(54);

pub const ENUM_SPEC: Nonterminal = Nonterminal(55);

pub const ENUMERATORS: Nonterminal = Nonterminal(56);

pub const ENUMERATOR: Nonterminal = Nonterminal(57);

pub const VAR_DECLARATOR: Nonterminal = Nonterminal(58);

pub const DECLARATOR: Nonterminal = Nonterminal(59);

pub const DIRECT_DECLARATOR: Nonterminal = Nonterminal(60);

pub const ABSTRACT_DECLARATOR: Nonterminal = Nonterminal(61);

pub const DIRECT_ABSTRACT: Nonterminal = Nonterminal(62);

pub const POINTER: Nonterminal = Nonterminal(63);

pub const ARRAY_SUFFIX: Nonterminal = Nonterminal(64);

pub const PARAM_SUFFIX: Nonterminal = Nonterminal(65);

pub const POPEN: Nonterminal = Nonterminal(66);

pub const INITIALIZERS: Nonterminal = Nonterminal(67);

pub const INITIALIZER: Nonterminal = Nonterminal(68);

pub const DESIGNATION: Nonterminal = Nonterminal(69);

pub const DESIGNATORS: Nonterminal = Nonterminal(70);

pub const DESIGNATOR: Nonterminal = Nonterminal(71);

pub const ARGUMENTS: Nonterminal = Nonterminal(72);

pub const CONSTANT_EXPRESSION: Nonterminal = Nonterminal(73);

pub const EXPRESSION: Nonterminal = Nonterminal(74);

pub const ASSIGNMENT_EXPRESSION: Nonterminal = Nonterminal(75);

pub const ASSIGNMENT_OPERATOR: Nonterminal = Nonterminal(76);

pub const CONDITIONAL: Nonterminal = Nonterminal(77);

pub const LOGICAL_OR: Nonterminal = Nonterminal(78);

pub const LOGICAL_AND: Nonterminal = Nonterminal(79);

pub const INCLUSIVE_OR: Nonterminal = Nonterminal(80);

pub const EXCLUSIVE_OR: Nonterminal = Nonterminal(81);

pub const AND_EXPRESSION: Nonterminal = Nonterminal(82);

pub const EQUALITY: Nonterminal = Nonterminal(83);

pub const RELATIONAL: Nonterminal = Nonterminal(84);

pub const SHIFT_EXPRESSION: Nonterminal = Nonterminal(85);

pub const ADDITIVE: Nonterminal = Nonterminal(86);

pub const MULTIPLICATIVE: Nonterminal = Nonterminal(87);

pub const CAST: Nonterminal = Nonterminal(88);

pub const UNARY: Nonterminal = Nonterminal(89);

pub const UNARY_OPERATOR: Nonterminal = Nonterminal(90);

pub const POSTFIX: Nonterminal = Nonterminal(91);

pub const PRIMARY: Nonterminal = Nonterminal(92);

pub const GENERIC: Nonterminal = Nonterminal(93);

pub const ASSOCIATIONS: Nonterminal = Nonterminal(94);

pub const ASSOCIATION: Nonterminal = Nonterminal(95);

pub const STRING_LIST: Nonterminal = Nonterminal(96);

pub const GENERAL_IDENTIFIER: Nonterminal = Nonterminal(97);

pub const TYPEDEF_NAME: Nonterminal = Nonterminal(98);

pub const VAR_NAME: Nonterminal = Nonterminal(99);
