// Worked scripts: the shape of their trees, or the fault and its place. The table is a text, where `~` is a line feed.
ghost use Rattle.std.specs.Prelude.{◌≤◌, length, IfOk};

use super::*;
use plural_lexer::tokens;
use std::alloc::Global;
use std::test::Fail;

fn bytes_of(alloc: Global, text: &str) -> Result<Vec<u8>, Fail>
    ensures { IfOk result (λ bytes. length bytes.items ≤ 1048576) }
{
    let mut bytes = Vec::new(alloc);
    for byte in text.as_bytes() {
        bytes.push(if *byte == b'~' { b'\n' } else { *byte })?;
    }
    if bytes.len() > 1048576 {
        return Err("a script of a table is short".into());
    }
    Ok(bytes)
}

fn base_name(base: &Base) -> &'static str {
    match base {
        Base::Int { .. } => "n",
        Base::Name { index: None, .. } => "x",
        Base::Name { .. } => "x[]",
        Base::Group { .. } => "()",
        Base::Call { name, .. } => match name.function {
            Function::Std => "Std",
            Function::TwoStd => "TwoStd",
            Function::Nf => "Nf",
            Function::Reduce => "Reduce",
            Function::Eliminate => "Eliminate",
            Function::Syz => "Syz",
            Function::Cofactors => "Cofactors",
            Function::TwoChain => "TwoChain",
            Function::Summary => "Summary",
            Function::Ideal => "IdealOf",
        },
    }
}

fn write_factor(shape: &mut String, factor: &Factor) -> Result<(), Fail> {
    shape.push_str(base_name(&factor.base))?;
    if factor.power.is_some() {
        shape.push_str("^n")?;
    }
    Ok(())
}

fn write_term(shape: &mut String, term: &Term) -> Result<(), Fail> {
    write_factor(shape, &term.first)?;
    for scaled in term.more.as_slice() {
        match scaled {
            Scaled::Times { factor, .. } => {
                shape.push_str("*")?;
                write_factor(shape, factor)?;
            }
            Scaled::Over { .. } => shape.push_str("/n")?,
        }
    }
    Ok(())
}

// The terms, each later one behind the column of its sign.
fn write_expr(shape: &mut String, expr: &Expr) -> Result<(), Fail> {
    write_term(shape, &expr.first)?;
    for added in expr.more.as_slice() {
        write!(shape, "@{}", added.sign.column)?;
        write_term(shape, &added.term)?;
    }
    Ok(())
}

fn statement_name(statement: &Statement) -> &'static str {
    match statement {
        Statement::Empty { .. } => "Empty",
        Statement::Ring { .. } => "Ring",
        Statement::SetRing { .. } => "SetRing",
        Statement::NcAlgebra { .. } => "NcAlgebra",
        Statement::Def { .. } => "Def",
        Statement::Poly { .. } => "Poly",
        Statement::Ideal { .. } => "Ideal",
        Statement::Module { .. } => "Module",
        Statement::Matrix { .. } => "Matrix",
        Statement::Option { .. } => "Option",
        Statement::Short { .. } => "Short",
        Statement::Quit { .. } => "Quit",
        Statement::Assign { .. } => "Assign",
        Statement::AssignEntry { .. } => "AssignEntry",
        Statement::Print { .. } => "Print ",
    }
}

// Each statement as its name, and the shape of what is printed.
fn write_script(shape: &mut String, script: &Script) -> Result<(), Fail> {
    for statement in script.statements.as_slice() {
        shape.push_str(statement_name(statement))?;
        if let Statement::Print { value, .. } = statement {
            write_expr(shape, value.get())?;
        }
        shape.push_str(";")?;
    }
    Ok(())
}

fn answer(alloc: Global, script: &str) -> Result<String, Fail> {
    let bytes = bytes_of(alloc, script)?;
    let tokens = tokens(alloc, &bytes)?;
    let mut shape = String::new(alloc);
    match parse(alloc, &bytes, &tokens) {
        Ok(script) => write_script(&mut shape, &script)?,
        Err(fault) => write!(shape, "{fault:?}")?,
    }
    Ok(shape)
}

const SCRIPTS: &str = "\
|
;~;|Empty;Empty;
ring r = 7,(x,d),dp;~def W = nc_algebra(1,1); setring W;|Ring;NcAlgebra;SetRing;
ring r=2,x,(a(1,2),wp(1,1),c);option(redSB,redTail);short=0;quit;|Ring;Option;Short;Quit;
poly f;poly g=-x^2*3/2+(x+1);module M=syz(x,d);ideal I;ideal J=x,d;|Poly;Poly;Module;Ideal;Ideal;
matrix D[2][3]=1,x,0;def E=D;D[1,3]=z;J=J,x;D[1,2]^2;|Matrix;Def;AssignEntry;Assign;Print x[]^n;
x*y/2+z-w^3*v/4;(x)-I[1]*2;|Print x*x/n@6x@8x^n*x/n;Print ()@20x[]*n;
std(x,d);twostd(x);NF(x,I);reduce(x,I);eliminate(I,x);|Print Std;Print TwoStd;Print Nf;Print Reduce;Print Eliminate;
syz(x);cofactors(x);twochain(x);summary(x);ideal(x)^2;|Print Syz;Print Cofactors;Print TwoChain;Print Summary;Print IdealOf^n;
((((((((((((((((((((((((((((((((((((((((((((((((((((((((((((((((x))))))))))))))))))))))))))))))))))))))))))))))))))))))))))))))));|Print ();
ring;|Unexpected { line: 1, column: 5 }
ring r = 7,(x,d),dp;~ideal I = x*|Unexpected { line: 2, column: 13 }
x~|Unexpected { line: 2, column: 1 }
x//2;|Unexpected { line: 1, column: 6 }
2x;|Unexpected { line: 1, column: 2 }
x^2^3;|Unexpected { line: 1, column: 4 }
std(x,);|Unexpected { line: 1, column: 7 }
std();|Unexpected { line: 1, column: 5 }
I[1]=x;|Unexpected { line: 1, column: 5 }
I[1,2,3];|Unexpected { line: 1, column: 6 }
2[1];|Unexpected { line: 1, column: 2 }
def W = nc_algebra(1);|Unexpected { line: 1, column: 21 }
ring r = 7,(x,d),dp,lp;|Unexpected { line: 1, column: 20 }
x--d;|Unexpected { line: 1, column: 3 }
module M = x,d;|Unexpected { line: 1, column: 13 }
~ quit quit;|Unexpected { line: 2, column: 7 }
~~(((((((((((((((((((((((((((((((((((((((((((((((((((((((((((((((((x)))))))))))))))))))))))))))))))))))))))))))))))))))))))))))))))));|Deep { line: 3, column: 65 }
+((((((((((((((((((((((((((((((((((((((((((((((((((((((((((((((((std(;|Deep { line: 1, column: 69 }
((((((((((((((((((((((((((((((((((((((((((((((((((((((((((((((((*(|Unexpected { line: 1, column: 65 }";

#[test]
fn shapes_and_faults(rt: HostRuntime) -> Result<(), Fail> {
    let alloc = rt.alloc();
    for row in SCRIPTS.lines() {
        let (script, want) = row.split_once('|').ok_or("a row has a bar")?;
        let found = answer(alloc, script)?;
        assert_eq!(rt; found.as_str(), want);
    }
    Ok(())
}
