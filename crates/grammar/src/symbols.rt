// The kinds, roles and symbols of specs/Symbols.antt, written by tools/tables.py.

// What the grammar tells apart of a token.
#[derive(Drop)]
pub struct Kind {}

impl Kind {
    pub const END: u8 = 0;

    pub const WORD: u8 = 1;

    pub const NUMBER: u8 = 2;

    pub const VALUE: u8 = 3;

    pub const FUNC: u8 = 4;

    pub const DIALECT: u8 = 5;

    pub const QUOTED: u8 = 6;

    pub const TYPE: u8 = 7;

    pub const ARROW: u8 = 8;

    pub const OTHER: u8 = 9;

    pub const FUNCTION: u8 = 10;

    pub const LABEL: u8 = 11;

    pub const FUNCRETURN: u8 = 12;

    pub const BODYRETURN: u8 = 13;

    pub const ARRAY: u8 = 14;

    pub const DENSE: u8 = 15;

    pub const BOOLEAN: u8 = 16;

    pub const I64: u8 = 17;

    pub const TOKEN: u8 = 18;

    pub const TUPLE: u8 = 19;

    pub const LPAREN: u8 = 20;

    pub const RPAREN: u8 = 21;

    pub const LBRACE: u8 = 22;

    pub const RBRACE: u8 = 23;

    pub const LANGLE: u8 = 24;

    pub const RANGLE: u8 = 25;

    pub const LBRACKET: u8 = 26;

    pub const RBRACKET: u8 = 27;

    pub const COMMA: u8 = 28;

    pub const COLON: u8 = 29;

    pub const EQUALS: u8 = 30;

    pub const COUNT: u8 = 32;
}

// A token's role in a text.
#[derive(Drop)]
pub struct Role {}

impl Role {
    pub const END: u8 = 1;

    pub const FUNCTION_NAME: u8 = 2;

    pub const INPUT_NAME: u8 = 3;

    pub const INPUT_TYPE: u8 = 4;

    pub const OUTPUT_TYPE: u8 = 5;

    pub const RESULT_NAME: u8 = 6;

    pub const OP_NAME: u8 = 7;

    pub const FUNC_RETURN: u8 = 8;

    pub const OPERAND_NAME: u8 = 9;

    pub const OPERAND_TYPE: u8 = 10;

    pub const RESULT_TYPE: u8 = 11;

    pub const BODY_OPEN: u8 = 12;

    pub const BODY_LABEL: u8 = 13;

    pub const ARGUMENT_NAME: u8 = 14;

    pub const ARGUMENT_TYPE: u8 = 15;

    pub const BODY_OP_NAME: u8 = 16;

    pub const BODY_RETURN: u8 = 17;

    pub const BODY_CLOSE: u8 = 18;

    pub const ATTRIBUTE_NAME: u8 = 19;

    pub const SINGLE_NUMBER: u8 = 20;

    pub const LIST_NUMBER: u8 = 21;

    pub const CHOICE_KIND: u8 = 22;

    pub const CHOICE: u8 = 23;

    pub const ELEMENT_LITERAL: u8 = 24;

    pub const DENSE_OPEN: u8 = 25;

    pub const DENSE_CLOSE: u8 = 26;

    pub const DENSE_TYPE: u8 = 27;

    pub const FUNC: u8 = 28;

    pub const LPAREN: u8 = 29;

    pub const RPAREN: u8 = 30;

    pub const LBRACE: u8 = 31;

    pub const RBRACE: u8 = 32;

    pub const LANGLE: u8 = 33;

    pub const RANGLE: u8 = 34;

    pub const COMMA: u8 = 35;

    pub const COLON: u8 = 36;

    pub const EQUALS: u8 = 37;

    pub const ARROW: u8 = 38;

    pub const DIALECT: u8 = 39;

    pub const ARRAY: u8 = 40;

    pub const DENSE: u8 = 41;

    pub const I64: u8 = 42;
}

// Symbols that reading starts from.
#[derive(Drop)]
pub struct Symbol {}

impl Symbol {
    pub const PROGRAM: u8 = 43;

    pub const BODY: u8 = 57;

    pub const DENSE: u8 = 73;

    pub const OP: u8 = 76;

    pub const COUNT: u8 = 78;
}
