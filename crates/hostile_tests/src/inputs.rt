//! The sources, and what comes of them: written by `tools/hostile_counts.py --write`, from the rules of `docs/`.

/// A worked source of the reader of the mapfile.
pub const MAPFILE: &[u8] = b"\
MAP # a map\n\
NAME 'm' EXTENT 0 -1 1e1 2.5\n\
LAYER NAME \"a b\"\n\
TYPE POLYGON\n\
PROCESSING \"ITEMS=k,n\" CLASSITEM k\n\
CLASS\n\
EXPRESSION ([n] >= 1 AND NOT '[k]' IN \"x,y\")\n\
STYLE\n\
COLOR 10 20 30\n\
WIDTH 2\n\
END\n\
END\n\
FEATURE\n\
ITEMS \"x;2\" POINTS 1 1 3 1 3 3 END\n\
END\n\
END\n\
END\n\
";

/// What comes of all that is made of it.
pub const MAPFILE_ROWS: &str = "\
2 52 86 10 100 0 0 0 0 0 0; 1823=prefixes
7 242 0 0 0 0 0 0 0 0 0; 1833=0
19 51 148 31 0 0 0 0 0 0 0; 1763=34
30 100 89 10 0 0 0 0 0 20 0; 1695=123
7 242 0 0 0 0 0 0 0 0 0; 1833=255
0 8 0 0 0 0 0 0 0 0 0; 8=drawn
0 0 8 0 0 0 0 0 0 0 0; 12=lines";

/// A worked source of the reader of the table.
pub const TABLE: &[u8] = b"\
x,y,n\n\
1,2,a\n\
-3.5,4e0,\"b, \"\"c\"\"\"\r\n\
\n\
\x205 ,6,\xc3\xa9\n\
";

/// What comes of all that is made of it.
pub const TABLE_ROWS: &str = "\
24 1 2 0 16 1 0 0 0 0 0; 57=prefixes
13 0 4 15 9 2 0 0 0 0 0; 86=0
11 0 4 10 16 2 0 0 0 0 0; 90=34
13 0 4 15 9 2 0 0 0 0 0; 86=123
0 0 0 0 8 35 0 0 0 0 0; 122=255
0 0 0 0 0 8 0 0 0 0 0; 8=drawn
0 0 5 2 0 0 1 0 0 0 0; 17=lines";

/// A worked source of the reader of the pixmap.
pub const PIXMAP: &[u8] = b"\
P6 # ab\n\
2 3\n\
255\n\
abcdefghijklmnopqr";

/// What comes of all that is made of it.
pub const PIXMAP_ROWS: &str = "\
1 2 14 0 18 0 0 0 0 0 0; 0=prefixes
21 2 11 0 0 0 0 0 0 0 0; 0=0
21 2 11 0 0 0 0 0 0 0 0; 0=34
21 2 11 0 0 0 0 0 0 0 0; 0=123
21 2 11 0 0 0 0 0 0 0 0; 0=255
0 8 0 0 0 0 0 0 0 0 0; 0=drawn
0 5 3 0 0 0 0 0 0 0 0; 0=lines";

/// A worked source of the reader of the font.
pub const FONT: &[u8] = b"\
STARTFONT 2.1\n\
FONTBOUNDINGBOX 2 2 0 -1\n\
CHARS 2\n\
STARTCHAR A\n\
ENCODING 65\n\
DWIDTH 3 0\n\
BBX 2 2 0 0\n\
BITMAP\n\
C0\n\
80\n\
ENDCHAR\n\
STARTCHAR B\n\
ENCODING -1\n\
DWIDTH 9 0\n\
BBX 9 1 -1 2\n\
BITMAP\n\
AA80\n\
ENDCHAR\n\
ENDFONT\n\
";

/// What comes of all that is made of it.
pub const FONT_ROWS: &str = "\
2 9 41 17 0 0 123 0 0 0 0; 1775=prefixes
5 10 141 27 0 0 8 0 0 0 0; 1867=0
5 10 141 27 0 0 8 0 0 0 0; 1867=34
5 10 141 27 0 0 8 0 0 0 0; 1867=123
5 10 141 27 0 0 8 0 0 0 0; 1867=255
0 8 0 0 0 0 0 0 0 0 0; 8=drawn
0 7 1 0 0 0 0 0 0 0 0; 11=lines";

/// A worked source of the reader of the batch.
pub const BATCH: &[u8] = b"\
OFF a\n\
APPEND 15 p\n\
x,y\n\
1,2\n\
3.5,-4\n\
ON a\r\n\
CLEAR p\n\
";

/// What comes of all that is made of it.
pub const BATCH_ROWS: &str = "\
5 0 0 0 0 0 43 0 0 0 0; 100=prefixes
0 23 8 0 15 0 1 0 0 0 0; 110=0
0 23 8 0 15 0 1 0 0 0 0; 110=34
0 23 8 0 15 0 1 0 0 0 0; 110=123
0 23 8 0 15 0 1 0 0 0 0; 110=255
0 8 0 0 0 0 0 0 0 0 0; 8=drawn
0 6 0 0 2 0 0 0 0 0 0; 12=lines";

/// A worked source of the reader of the head.
pub const HEAD: &[u8] = b"\
GET /wms?REQUEST=x HTTP/1.1\r\n\
Host: a\r\n\
Content-Length: 0\r\n\
\r\n\
";

/// What comes of all that is made of it.
pub const HEAD_ROWS: &str = "\
1 58 0 0 1 0 0 0 0 0 0; 0=prefixes
0 59 0 0 0 0 0 0 0 0 0; 0=0
12 42 5 0 0 0 0 0 0 0 0; 0=34
12 42 5 0 0 0 0 0 0 0 0; 0=123
3 56 0 0 0 0 0 0 0 0 0; 0=255
0 8 0 0 0 0 0 0 0 0 0; 0=drawn
0 8 0 0 0 0 0 0 0 0 0; 0=lines";

/// A worked source of the reader of the query.
pub const QUERY: &[u8] = b"\
REQUEST=GetMap&VERSION=1.3.0&LAYERS=a&STYLES=&CRS=CRS:84&BBOX=0,0,4,4&WIDTH=4&HEIGHT=4&FORMAT=image/x-portable-pixmap";

/// What comes of all that is made of it.
pub const QUERY_ROWS: &str = "\
1 75 10 5 0 0 5 22 0 0 0; 0=prefixes
0 59 18 7 2 1 7 23 0 0 0; 0=0
0 59 18 7 2 1 7 23 0 0 0; 0=34
0 59 18 7 2 1 7 23 0 0 0; 0=123
0 59 18 7 2 1 7 23 0 0 0; 0=255
0 8 0 0 0 0 0 0 0 0 0; 0=drawn
0 0 0 0 0 0 0 8 0 0 0; 0=lines";

/// A worked source of the reader of the png.
pub const PNG: &[u8] = b"\
REQUEST=GetMap&VERSION=1.3.0&LAYERS=a&STYLES=&CRS=CRS:84&BBOX=0,0,4,4&WIDTH=4&HEIGHT=4&FORMAT=image/png&TRANSPARENT=TRUE";

/// What comes of all that is made of it.
pub const PNG_ROWS: &str = "\
15 75 13 5 0 0 5 8 0 0 0; 0=prefixes
12 59 22 7 2 1 7 10 0 0 0; 0=0
12 59 22 7 2 1 7 10 0 0 0; 0=34
12 59 22 7 2 1 7 10 0 0 0; 0=123
12 59 22 7 2 1 7 10 0 0 0; 0=255
0 8 0 0 0 0 0 0 0 0 0; 0=drawn
0 0 8 0 0 0 0 0 0 0 0; 0=lines";

/// A worked source of the reader of the script.
pub const SCRIPT: &[u8] = b"\
QUERY REQUEST=x\n\
BATCH 12\n\
OFF a\n\
OFF b\n\
QUERY \n\
";

/// What comes of all that is made of it.
pub const SCRIPT_ROWS: &str = "\
4 41 0 0 0 0 0 0 0 0 0; 73=prefixes
21 23 0 0 0 0 0 0 0 0 0; 47=0
21 23 0 0 0 0 0 0 0 0 0; 47=34
21 23 0 0 0 0 0 0 0 0 0; 47=123
21 23 0 0 0 0 0 0 0 0 0; 47=255
0 8 0 0 0 0 0 0 0 0 0; 8=drawn
0 8 0 0 0 0 0 0 0 0 0; 15=lines";

/// A worked source of the reader of the administrator.
pub const ADMINISTRATOR: &[u8] = b"\
BATCH 6\n\
OFF a\n\
RETRY\n\
BATCH 5\n\
ON b\n\
";

/// What comes of all that is made of it.
pub const ADMINISTRATOR_ROWS: &str = "\
20 1 14 0 0 0 0 0 0 0 0; 1=prefixes
19 17 19 22 0 0 0 0 0 0 0; 17=0
19 17 19 22 0 0 0 0 0 0 0; 17=34
19 17 19 22 0 0 0 0 0 0 0; 17=123
19 17 19 22 0 0 0 0 0 0 0; 17=255
0 0 0 8 0 0 0 0 0 0 0; 0=drawn
0 5 2 8 0 0 0 0 0 0 0; 5=lines";
